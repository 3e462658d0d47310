ghost use Rattle.std.specs.Prelude.{◌≡◌, ◌<◌, ◌^◌, length};
ghost use Rattle.caf_words.specs.Spelling.{AreBytes};

/// The length of a slice, and what its type says of its bytes: a saver needs it to know that its events
/// are in range.
pub fn measured(bytes: &[u8]) -> u64
    ensures value { result ≡ length bytes.now }
    ensures bytes { AreBytes bytes.now }
    ensures length { length bytes.now < 2 ^ 64 }
{
    let length = bytes.len();
    length as u64
}
