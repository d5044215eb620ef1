//! Laws and examples of frames, asks, journals and of what the host sends.

ghost use Rattle.ghost_model.specs.laws.ChannelLaws.{FramesArePrefixFree, FramesHaveOneSpelling, AsksHaveOneSpelling, AsksAreVisible, AsksAreProper, AsksAreFew, RowsHaveOneSpelling, TwoWorlds, ReceivedIsSpelled, AwaitedIsHeard, SentIsDue};
ghost use Rattle.ghost_model.specs.laws.HostLaws.{FramesAreCut, HostIsHonest, NothingIsLost, GreetingsAreHeard, RepliesAreHeard, HonestStreamsAreHeard};
ghost use Rattle.ghost_model.specs.examples.Channel.{SpellingsOfFrames, ReadingsOfFrames, JournalOfTheNotes, AsksOfQueries, AsksOfBytes, JournalOfTheClinic, JournalWithoutAsks, JournalsOfAsks, JournalsCutShort, JournalInSingleBytes, InvalidFrames, FramesThatAreDue, AnswersOfTheHost};

/// No frame's spelling is a proper prefix of another's.
pub fn frames_are_prefix_free()
    ensures { FramesArePrefixFree }
{}

/// Reading and spelling are inverse: a frame is found where bytes begin with its spelling, whatever follows, and nothing
/// else is found.
pub fn frames_have_one_spelling()
    ensures { FramesHaveOneSpelling }
{}

/// An ask that a key may send is the one that its payload spells, and no other payload spells it.
pub fn asks_have_one_spelling()
    ensures { AsksHaveOneSpelling }
{}

/// Frames that are sent one after another are cut into these frames again.
pub fn frames_are_cut()
    ensures { FramesAreCut }
{}

/// Asks name visible columns alone: nothing of a hidden column or of an identifier is sent.
pub fn asks_are_visible()
    ensures { AsksAreVisible }
{}

/// The asks of an accepted text are such as a key may send.
pub fn asks_are_proper()
    ensures { AsksAreProper }
{}

/// The asks of some texts over a schema of at most 12 tables are at most 12 for each text.
pub fn asks_are_few()
    ensures { AsksAreFew }
{}

/// Rows of a reply are the ones that their bytes spell, and bytes of whole rows are those of the rows that they spell.
pub fn rows_have_one_spelling()
    ensures { RowsHaveOneSpelling }
{}

/// Received bytes are the spellings of the frames that the key heard, joined, and the part of the frame at hand.
pub fn received_bytes_are_frames()
    ensures { ReceivedIsSpelled }
{}

/// The bytes of a frame that may come in its place are heard as this frame.
pub fn awaited_frames_are_heard()
    ensures { AwaitedIsHeard }
{}

/// What a proper journal sent is the first of the frames that its taken bytes make due.
pub fn sent_frames_are_due()
    ensures { SentIsDue }
{}

/// Two proper journals for the same catalog, address and asks, as those of the same texts, whose first answers agree have the same moves up to and
/// with the one after these.
pub fn two_worlds()
    ensures { TwoWorlds }
{}

/// Whatever a key sends, this host says a front of an honest stream: its catalog, then the whole reply to each ask.
pub fn host_is_honest()
    ensures { HostIsHonest }
{}

/// The WELCOME frames of a host spell its catalog, and the ROWS frames of a reply its rows.
pub fn nothing_is_lost()
    ensures { NothingIsLost }
{}

/// WELCOME frames that spell the catalog, cut anywhere, are heard whole.
pub fn greetings_are_heard()
    ensures { GreetingsAreHeard }
{}

/// The whole reply to an ask, in any packing, is heard whole: the ask is ended with all its rows.
pub fn replies_are_heard()
    ensures { RepliesAreHeard }
{}

/// The stream of an honest host, in any packing, is heard to its end without an invalid frame, and each ask is ended with
/// all its rows.
pub fn honest_streams_are_heard()
    ensures { HonestStreamsAreHeard }
{}

/// The spelling of each kind of frame.
pub fn spellings_of_frames()
    ensures { SpellingsOfFrames }
{}

/// What bytes amount to that begin with a frame: the frame, a part of one, or none.
pub fn readings_of_frames()
    ensures { ReadingsOfFrames }
{}

/// The whole session of one text over the notes, and its journal's file.
pub fn journal_of_the_notes()
    ensures { JournalOfTheNotes }
{}

/// The asks of telling queries, as bytes.
pub fn asks_of_queries()
    ensures { AsksOfQueries }
{}

/// The asks that bytes spell, and bytes that spell none.
pub fn asks_of_bytes()
    ensures { AsksOfBytes }
{}

/// The whole session of one text over the clinic.
pub fn journal_of_the_clinic()
    ensures { JournalOfTheClinic }
{}

/// The session of a script that asks for nothing.
pub fn journal_without_asks()
    ensures { JournalWithoutAsks }
{}

/// Sessions with an ask without a row, and with the asks of two texts.
pub fn journals_of_asks()
    ensures { JournalsOfAsks }
{}

/// Sessions in which a host refuses an ask, or sends an invalid frame.
pub fn journals_cut_short()
    ensures { JournalsCutShort }
{}

/// A session whose reply comes byte by byte.
pub fn journal_in_single_bytes()
    ensures { JournalInSingleBytes }
{}

/// Frames that are invalid in their place, each with its kind and the bytes taken before it.
pub fn invalid_frames()
    ensures { InvalidFrames }
{}

/// The frames that received bytes make due.
pub fn frames_that_are_due()
    ensures { FramesThatAreDue }
{}

/// What hosts say to the frames of a key, and the frames at which they stop.
pub fn answers_of_the_host()
    ensures { AnswersOfTheHost }
{}
