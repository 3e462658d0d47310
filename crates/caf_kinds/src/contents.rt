//! The objects of the block `core`: what pipelines of actors tell one another.
ghost use Rattle.std.specs.Prelude.{refl};
ghost use Rattle.caf_words.specs.Fitting.{both_hold, list_fits};
ghost use Rattle.caf_kinds.specs.Core.{chunk, item, postings, extent, summary, total, finish};
ghost use Rattle.caf_kinds.specs.Contents.{chunk_means, item_means, postings_means, extent_means, summary_means, total_means, finish_means};

use crate::Element;
use caf_types::{Letters, Memory, Octets, Seq, Shape, TypeId, shape_of};
use caf_words::{
    Spelled, Stop, read_bytes, read_list, read_object_head, read_text, read_word, write_bytes,
    write_list, write_object_head, write_text, write_word,
};
use std::alloc::Global;

/// Whole lines of a file.
#[derive(Debug, Drop)]
pub struct Chunk {
    /// The file's number, from 1.
    pub file: u64,
    /// The chunk's number among those of all files, from 0.
    pub number: u64,
    /// The number of the first line, from 1.
    pub line: u64,
    /// The lines.
    pub bytes: Octets,
}

/// That a word stands in a line.
#[derive(Debug, Drop)]
pub struct Item {
    /// The word, in lower case.
    pub word: Letters,
    /// The line's number.
    pub line: u64,
}

/// Which words stand in which lines of a part of a file.
#[derive(Debug, Drop)]
pub struct Postings {
    /// The file's number, from 1.
    pub file: u64,
    /// Each word with a line, by word and then by line.
    pub items: Seq<Item>,
}

/// How much a part of a file is.
#[derive(Debug, Drop)]
pub struct Extent {
    /// The file's number, from 1.
    pub file: u64,
    /// How many lines it has.
    pub lines: u64,
    /// How many bytes it has.
    pub bytes: u64,
}

/// How much an index has.
#[derive(Debug, Drop)]
pub struct Summary {
    /// The number of its words.
    pub words: u64,
    /// The number of its (word, file, line) entries.
    pub postings: u64,
}

/// How much all files are.
#[derive(Debug, Drop)]
pub struct Total {
    /// How many lines they have.
    pub lines: u64,
    /// How many bytes they have.
    pub bytes: u64,
}

/// That all chunks were told.
#[derive(Debug, Drop)]
pub struct Finish {
    /// How many there were.
    pub chunks: u64,
}

impl Spelled for Chunk {
    ghost shape = { chunk };

    ghost means = { chunk_means };

    fn write(&self, words: &mut Vec<u64>) -> Result<(), Memory> {
        write_object_head(words, 4)?;
        write_word(words, self.file)?;
        write_word(words, self.number)?;
        write_word(words, self.line)?;
        write_bytes(words, self.bytes.as_slice())?;
        Ok(())
    }

    fn read(alloc: Global, words: &[u64]) -> Result<(Chunk, &[u64]), Stop> {
        let rest = read_object_head(words, 4)?;
        let (file, rest) = read_word(rest)?;
        let (number, rest) = read_word(rest)?;
        let (line, rest) = read_word(rest)?;
        let (bytes, rest) = read_bytes(alloc, rest)?;
        Ok((
            Chunk {
                file,
                number,
                line,
                bytes,
            },
            rest,
        ))
    }

    ghost fits_shape = { λ it. refl };
}

impl Element for Chunk {
    ghost id = { 200 };

    fn type_id() -> TypeId {
        TypeId(200)
    }

    fn shape_of(alloc: Global) -> Result<Shape, Memory> {
        Ok(shape_of!(alloc, { file: Unsigned, number: Unsigned, line: Unsigned, bytes: Bytes }))
    }
}

impl Spelled for Item {
    ghost shape = { item };

    ghost means = { item_means };

    fn write(&self, words: &mut Vec<u64>) -> Result<(), Memory> {
        write_object_head(words, 2)?;
        write_text(words, self.word.as_str())?;
        write_word(words, self.line)?;
        Ok(())
    }

    fn read(alloc: Global, words: &[u64]) -> Result<(Item, &[u64]), Stop> {
        let rest = read_object_head(words, 2)?;
        let (word, rest) = read_text(alloc, rest)?;
        let (line, rest) = read_word(rest)?;
        Ok((Item { word, line }, rest))
    }

    ghost fits_shape = { λ it. refl };
}

impl Spelled for Postings {
    ghost shape = { postings };

    ghost means = { postings_means };

    fn write(&self, words: &mut Vec<u64>) -> Result<(), Memory> {
        write_object_head(words, 2)?;
        write_word(words, self.file)?;
        write_list(words, self.items.as_slice())?;
        Ok(())
    }

    fn read(alloc: Global, words: &[u64]) -> Result<(Postings, &[u64]), Stop> {
        let rest = read_object_head(words, 2)?;
        let (file, rest) = read_word(rest)?;
        let (items, rest) = read_list(alloc, rest)?;
        Ok((Postings { file, items }, rest))
    }

    ghost fits_shape = { λ it. both_hold (list_fits item item_means (λ it. refl) it.items) refl };
}

impl Element for Postings {
    ghost id = { 201 };

    fn type_id() -> TypeId {
        TypeId(201)
    }

    fn shape_of(alloc: Global) -> Result<Shape, Memory> {
        Ok(shape_of!(alloc, { file: Unsigned, items: [{ word: Text, line: Unsigned }] }))
    }
}

impl Spelled for Extent {
    ghost shape = { extent };

    ghost means = { extent_means };

    fn write(&self, words: &mut Vec<u64>) -> Result<(), Memory> {
        write_object_head(words, 3)?;
        write_word(words, self.file)?;
        write_word(words, self.lines)?;
        write_word(words, self.bytes)?;
        Ok(())
    }

    fn read(_alloc: Global, words: &[u64]) -> Result<(Extent, &[u64]), Stop> {
        let rest = read_object_head(words, 3)?;
        let (file, rest) = read_word(rest)?;
        let (lines, rest) = read_word(rest)?;
        let (bytes, rest) = read_word(rest)?;
        Ok((Extent { file, lines, bytes }, rest))
    }

    ghost fits_shape = { λ it. refl };
}

impl Element for Extent {
    ghost id = { 202 };

    fn type_id() -> TypeId {
        TypeId(202)
    }

    fn shape_of(alloc: Global) -> Result<Shape, Memory> {
        Ok(shape_of!(alloc, { file: Unsigned, lines: Unsigned, bytes: Unsigned }))
    }
}

impl Spelled for Summary {
    ghost shape = { summary };

    ghost means = { summary_means };

    fn write(&self, words: &mut Vec<u64>) -> Result<(), Memory> {
        write_object_head(words, 2)?;
        write_word(words, self.words)?;
        write_word(words, self.postings)?;
        Ok(())
    }

    fn read(_alloc: Global, words: &[u64]) -> Result<(Summary, &[u64]), Stop> {
        let rest = read_object_head(words, 2)?;
        let (words, rest) = read_word(rest)?;
        let (postings, rest) = read_word(rest)?;
        Ok((Summary { words, postings }, rest))
    }

    ghost fits_shape = { λ it. refl };
}

impl Element for Summary {
    ghost id = { 203 };

    fn type_id() -> TypeId {
        TypeId(203)
    }

    fn shape_of(alloc: Global) -> Result<Shape, Memory> {
        Ok(shape_of!(alloc, { words: Unsigned, postings: Unsigned }))
    }
}

impl Spelled for Total {
    ghost shape = { total };

    ghost means = { total_means };

    fn write(&self, words: &mut Vec<u64>) -> Result<(), Memory> {
        write_object_head(words, 2)?;
        write_word(words, self.lines)?;
        write_word(words, self.bytes)?;
        Ok(())
    }

    fn read(_alloc: Global, words: &[u64]) -> Result<(Total, &[u64]), Stop> {
        let rest = read_object_head(words, 2)?;
        let (lines, rest) = read_word(rest)?;
        let (bytes, rest) = read_word(rest)?;
        Ok((Total { lines, bytes }, rest))
    }

    ghost fits_shape = { λ it. refl };
}

impl Element for Total {
    ghost id = { 204 };

    fn type_id() -> TypeId {
        TypeId(204)
    }

    fn shape_of(alloc: Global) -> Result<Shape, Memory> {
        Ok(shape_of!(alloc, { lines: Unsigned, bytes: Unsigned }))
    }
}

impl Spelled for Finish {
    ghost shape = { finish };

    ghost means = { finish_means };

    fn write(&self, words: &mut Vec<u64>) -> Result<(), Memory> {
        write_object_head(words, 1)?;
        write_word(words, self.chunks)?;
        Ok(())
    }

    fn read(_alloc: Global, words: &[u64]) -> Result<(Finish, &[u64]), Stop> {
        let rest = read_object_head(words, 1)?;
        let (chunks, rest) = read_word(rest)?;
        Ok((Finish { chunks }, rest))
    }

    ghost fits_shape = { λ it. refl };
}

impl Element for Finish {
    ghost id = { 205 };

    fn type_id() -> TypeId {
        TypeId(205)
    }

    fn shape_of(alloc: Global) -> Result<Shape, Memory> {
        Ok(shape_of!(alloc, { chunks: Unsigned }))
    }
}
