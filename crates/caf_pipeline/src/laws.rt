//! The laws of undisturbed runs. A law is the contract of a function that does nothing.
ghost use Rattle.caf_pipeline.specs.Answered.{RestingRequestsAreAnswered, CompleteRequestsAreAnswered};
ghost use Rattle.caf_pipeline.specs.BuiltIn.{BuiltInIsUndisturbed};
ghost use Rattle.caf_pipeline.specs.Complete.{CompleteFilesAreIndexed};
ghost use Rattle.caf_pipeline.specs.Contents.{PartsTakeTheirContents};
ghost use Rattle.caf_pipeline.specs.Flow.{RelayedChunksAreCollected};
ghost use Rattle.caf_pipeline.specs.Indexed.{RelayedFilesAreIndexed, StartedFilesAreIndexed};
ghost use Rattle.caf_pipeline.specs.Indexed.{ToldFilesAreIndexed, UndisturbedFilesAreIndexed};
ghost use Rattle.caf_pipeline.specs.Numbers.{EnoughIsNeverSpent, UndisturbedRunsAreShort};
ghost use Rattle.caf_pipeline.specs.Parts.{PartsHandOn};
ghost use Rattle.caf_pipeline.specs.Postings.{PostingsFitAMessage};
ghost use Rattle.caf_pipeline.specs.Sent.{UndisturbedScriptIsSent};
ghost use Rattle.caf_pipeline.specs.Stamps.{UndisturbedStampsAreLow};
ghost use Rattle.caf_pipeline.specs.Text.{CompleteTextHasIndex};
ghost use Rattle.caf_pipeline.specs.Undisturbed.{UndisturbedOpens};

/// Undisturbed setups and their script can be opened with any files whose lines are short.
pub fn undisturbed_opens()
    ensures { UndisturbedOpens }
{}

/// The built-in setups, of 1 to 200 counters, and their script are undisturbed.
pub fn built_in_is_undisturbed()
    ensures { BuiltInIsUndisturbed }
{}

/// The postings of a chunk, which has no more bytes than a line may have, fit a message: a counter never drops them.
pub fn postings_fit_a_message()
    ensures { PostingsFitAMessage }
{}

/// What each part of a pipeline does with what it takes: the source tells its chunks, lines tells their extents, the
/// relay hands them on in lower case, a counter tells their postings, and the collector puts all of these together.
pub fn parts_hand_on()
    ensures { PartsHandOn }
{}

/// The conductor of an undisturbed script sends the script's messages and no others, all of them at Start.
pub fn undisturbed_script_is_sent()
    ensures { UndisturbedScriptIsSent }
{}

/// In a legal record over the opening of an undisturbed run, in which no tick and no Stop was taken, each place took
/// only the contents that the pipeline tells it: so the postings and extents that the collector took are those of
/// chunks of the files.
pub fn parts_take_their_contents()
    ensures { PartsTakeTheirContents }
{}

/// Where such a record is at rest, each chunk that the relay took came to the collector as its postings, through some
/// counter, and each that lines took came to it as its extent: none is lost on the way.
pub fn relayed_chunks_are_collected()
    ensures { RelayedChunksAreCollected }
{}

/// Where such a record is at rest and the relay took all chunks of the files, the collector's index is the plain index
/// of the files, whatever the order in which anything was taken.
pub fn relayed_files_are_indexed()
    ensures { RelayedFilesAreIndexed }
{}

/// Where such a record is at rest and the source has told all chunks, the collector's index is the plain index of the
/// files.
pub fn told_files_are_indexed()
    ensures { ToldFilesAreIndexed }
{}

/// Where such a record is at rest and the source was told to start, the collector's index is the plain index of the
/// files: at rest no source is still telling.
pub fn started_files_are_indexed()
    ensures { StartedFilesAreIndexed }
{}

/// Where a legal record over the opening of an undisturbed run is at rest, in which no tick and no Stop was taken, the
/// collector's index is the plain index of the files, whatever the order in which anything was taken.
pub fn undisturbed_files_are_indexed()
    ensures { UndisturbedFilesAreIndexed }
{}

/// In a legal record over the opening of an undisturbed run, in which no tick and no Stop was taken, fewer envelopes
/// were handled than 8 for each chunk of the files, 16 for each place and 2 for each step, be it at rest or not.
pub fn undisturbed_runs_are_short()
    ensures { UndisturbedRunsAreShort }
{}

/// So a budget of that many is never spent, where no tick was to come and Stop wasn't taken.
pub fn enough_is_never_spent()
    ensures { EnoughIsNeverSpent }
{}

/// In such a record no stamp has come to that number: of no place, and of nothing that is untaken.
pub fn undisturbed_stamps_are_low()
    ensures { UndisturbedStampsAreLow }
{}

/// In a complete record over the opening of an undisturbed run, which ends with Stop, the collector's index is the
/// plain index of the files: what comes after Stop leaves it as it was.
pub fn complete_files_are_indexed()
    ensures { CompleteFilesAreIndexed }
{}

/// Where a legal record over the opening of an undisturbed run is at rest, in which no tick and no Stop was taken, each
/// request of the conductor was answered by a value: the one for the index by how many words and entries the plain
/// index of the files has, and each one for totals by how many lines and bytes the files have.
pub fn resting_requests_are_answered()
    ensures { RestingRequestsAreAnswered }
{}

/// And so it is in a complete record: what comes after Stop leaves the replies as they were.
pub fn complete_requests_are_answered()
    ensures { CompleteRequestsAreAnswered }
{}

/// The text of a complete record over the opening of an undisturbed run, whatever the order in which anything was
/// taken: that of the plain index of the files, a line with the files' lines and bytes for each request for totals,
/// and the trace where it is wanted.
pub fn complete_text_has_index()
    ensures { CompleteTextHasIndex }
{}
