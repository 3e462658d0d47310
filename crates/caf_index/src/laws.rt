//! The laws of chunks, postings and indexes. A law is the contract of a function that does nothing.
ghost use Rattle.caf_index.specs.Chunks.{ChunksJoin, ChunksAreWholeLines, ChunksAreLongest, ChunksKeepWords};
ghost use Rattle.caf_index.specs.Postings.{LowerCaseKeepsPostings, ChunkPostingsAreThePlainOnes};
ghost use Rattle.caf_index.specs.Filled.{SameEntriesSameIndex, FilledIsPlain, FilledTextIsPlain, PostingsFillThePlainIndex};

/// The chunks of a file, joined in order, are the file.
pub fn chunks_join()
    ensures { ChunksJoin }
{}

/// Each chunk of a file has bytes, begins where the file does or behind a line end, in the line of its
/// number, and ends behind a line end or where the file does.
pub fn chunks_are_whole_lines()
    ensures { ChunksAreWholeLines }
{}

/// Each chunk has at most 16,384 bytes or is one line; with the line behind it, it would have more.
pub fn chunks_are_longest()
    ensures { ChunksAreLongest }
{}

/// The words of all chunks, each with its line, counted from the number of its chunk's first line, are
/// the words of the file with their lines, in order.
pub fn chunks_keep_words()
    ensures { ChunksKeepWords }
{}

/// Bytes whose `A` to `Z` are changed to `a` to `z` keep their postings.
pub fn lower_case_keeps_postings()
    ensures { LowerCaseKeepsPostings }
{}

/// Of a file with fewer than 2^64 bytes, a word stands in a line exactly where the postings of some
/// chunk of it, counted from the number of the chunk's first line, have the word with that line.
pub fn chunk_postings_are_the_plain_ones()
    ensures { ChunkPostingsAreThePlainOnes }
{}

/// An index depends on its entries alone: not on their order, nor on how often each was put in.
pub fn same_entries_same_index()
    ensures { SameEntriesSameIndex }
{}

/// An index that was filled with the entries of the plain index of some files, in whatever order, is
/// that plain index, and its text is the text of that.
pub fn filled_is_plain()
    ensures index { FilledIsPlain }
    ensures text { FilledTextIsPlain }
{}

/// An index that was filled with the postings of all chunks of some files, each of fewer than 2^64
/// bytes, in whatever order, is the plain index of the files.
pub fn postings_fill_the_plain_index()
    ensures { PostingsFillThePlainIndex }
{}
