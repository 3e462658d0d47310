//! The chunks of a source's files, by the places where they stand.
ghost use Rattle.std.specs.Prelude.{◌≡◌, ◌<◌, ◌++◌, true, length, slice_index_or, IfOk, OnOk};
ghost use Rattle.std.specs.List.{AllByRecursion};
ghost use Rattle.caf_words.specs.Datum.{are_bytes};
ghost use Rattle.caf_kinds.specs.Pipeline.{chunk_content};
ghost use Rattle.caf_index.specs.Chunks.{chunks_of, chunk_bytes};
ghost use Rattle.caf_kinds.specs.declared.contents.Chunk.{Chunk};
ghost use Rattle.caf_kinds.specs.FileChunks.{all_chunks, AreByteLists, AreChunks, file_at, IsPlaceIn, places_from, places_numbered};
ghost use Rattle.caf_kinds.specs.Starting.{has_short_lines};

use crate::asking::small_message;
use crate::{Chunk, One};
use caf_index::{Chunk as Span, chunks};
use caf_message::Message;
use caf_types::{Memory, Octets, Seq};
use std::alloc::Global;
use std::marker::Model;

/// Where a chunk stands: the number of its file, from 1, its own number among the chunks of all files,
/// from 0, and its lines.
#[derive(Clone, Copy, Debug, PartialEq, Eq, Drop)]
struct ChunkPlace {
    file: u64,
    number: u64,
    span: Span,
}

/// The chunks of files, in order. It keeps the files, and of the chunks the places.
#[derive(Debug, Drop)]
pub struct FileChunks {
    files: Seq<Octets>,
    places: Seq<ChunkPlace>,
}

impl Model for FileChunks {
    ghost use Rattle.std.specs.Prelude.{List, map};
    ghost use Rattle.std.specs.List.{AllByRecursion};
    ghost use Rattle.caf_kinds.specs.declared.contents.Chunk.{Chunk};
    ghost use Rattle.caf_kinds.specs.FileChunks.{chunk_in, IsPlaceIn};

    ghost Value = { List Chunk };

    ghost view = { λ it. map (chunk_in it.files) it.places };

    ghost invariant = { λ it. AllByRecursion (IsPlaceIn it.files) it.places };
}

impl FileChunks {
    /// All chunks of the files.
    pub(crate) fn of(alloc: Global, files: Seq<Octets>) -> Result<FileChunks, Memory>
        requires { AllByRecursion (λ bytes. has_short_lines 0 bytes ≡ true) files }
        ensures { IfOk result (λ it. it ≡ all_chunks files) }
    {
        know_files(files.as_slice());
        let places = places_of(alloc, files.as_slice())?;
        let _counts = (files.len(), places.len());
        Ok(FileChunks { files, places })
    }

    /// How many there are.
    pub(crate) fn len(&self) -> u64
        ensures { result ≡ length self.now }
    {
        self.places.len()
    }

    /// That each is a chunk.
    pub(crate) fn know(&self)
        ensures { AreChunks self.now }
    {
        let _ = &self.places;
    }

    /// The message of a chunk.
    pub(crate) fn message(&self, alloc: Global, i: u64) -> Result<Message, Memory>
        requires { i < length self.now }
        ensures { IfOk result (λ message. (c : Chunk) → message.content ≡ chunk_content (slice_index_or self.now i c)) }
    {
        self.know();
        let chunk = self.chunk(alloc, i)?;
        small_message(alloc, &One(chunk))
    }

    fn chunk(&self, alloc: Global, i: u64) -> Result<Chunk, Memory>
        requires { i < length self.now }
        ensures { IfOk result (λ chunk. (c : Chunk) → chunk ≡ slice_index_or self.now i c) }
    {
        let place = self.places.as_slice()[i as usize];
        let bytes = bytes_at(self.files.as_slice(), &place);
        Ok(Chunk {
            file: place.file,
            number: place.number,
            line: place.span.line,
            bytes: Seq::of_vec(Vec::from_slice(alloc, bytes)?),
        })
    }
}

/// That files have bytes.
fn know_files(files: &[Octets])
    ensures { AreByteLists files.now }
{
    for bytes in files {
        know_bytes(bytes.as_slice());
    }
}

fn know_bytes(bytes: &[u8])
    ensures { are_bytes bytes.now ≡ true }
{
    let _ = bytes.len();
}

/// The bytes of the chunk at that place.
fn bytes_at<'a>(files: &'a [Octets], place: &ChunkPlace) -> &'a [u8]
    requires { IsPlaceIn files.now place.now }
    ensures { result.now ≡ chunk_bytes (file_at files.now place.now.file) place.now.span }
{
    let bytes = files[(place.file - 1) as usize].as_slice();
    &bytes[place.span.from as usize..place.span.to as usize]
}

/// The places of the chunks of all files.
fn places_of(alloc: Global, files: &[Octets]) -> Result<Seq<ChunkPlace>, Memory>
    ensures { IfOk result (λ places. places ≡ places_from 1 0 files.now) }
{
    let mut places = Seq::new(alloc);
    for (before, bytes) in files.iter().enumerate() {
        let spans = chunks(alloc, bytes.as_slice())?;
        add_places(&mut places, before as u64 + 1, spans.as_slice())?;
    }
    Ok(places)
}

/// Adds the places of the chunks of one file.
fn add_places(places: &mut Seq<ChunkPlace>, file: u64, spans: &[Span]) -> Result<(), Memory>
    ensures { OnOk result (places.new ≡ places.old ++ places_numbered file (length places.old) spans.now) }
{
    for span in spans {
        let number = places.len();
        places.push(ChunkPlace {
            file,
            number,
            span: *span,
        })?;
    }
    Ok(())
}
