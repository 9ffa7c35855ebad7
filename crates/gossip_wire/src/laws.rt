// Laws of messages and frames.
ghost use Rattle.std.specs.Prelude.{◌≡◌, ◌++◌, ℕ, List, [], length};
ghost use Rattle.gossip_wire.specs.Frames.{Frames, IsFrame, frame_text};
ghost use Rattle.hex.specs.Hex.{IsBytes};
ghost use Rattle.gossip_wire.specs.FramesSpelled.{ReadsFrames, frames_of, placed, rest_of};
ghost use Rattle.gossip_wire.specs.FrameReaders.{HasReadFrames, state_of};
ghost use Rattle.gossip_wire.specs.Recordings.{AreReadAs, BreakAt, EndInside};
ghost use Rattle.gossip_wire.specs.declared.frame.Frame.{Frame};
ghost use Rattle.gossip_wire.specs.declared.frame_reader.FrameReader.{FrameReader};
ghost use Rattle.gossip_wire.specs.Messages.{IsMessage, SpellsMessage, message_text};
ghost use Rattle.gossip_wire.specs.declared.message.Message.{Message};

/// No message's spelling begins another, and a message is spelled in one way; so bytes are at most
/// one message, and what is written reads back.
pub fn no_message_begins_another()
    ensures front { (a b : Message) (x y : List ℕ) → IsMessage a → IsMessage b
        → message_text a ++ x ≡ message_text b ++ y → (a ≡ b) × (x ≡ y) }
    ensures one { (bytes : List ℕ) (a b : Message)
        → SpellsMessage a bytes → SpellsMessage b bytes → a ≡ b }
    ensures back { (a b : Message)
        → IsMessage a → SpellsMessage b (message_text a) → b ≡ a }
{}

/// No frame's spelling begins another, and a frame is spelled in one way; so bytes are at most one
/// list of as many frames, and one rest.
pub fn no_frame_begins_another()
    ensures one { (f g : Frame) (a b : List ℕ) → IsFrame f → IsFrame g
        → frame_text f ++ a ≡ frame_text g ++ b → (f ≡ g) × (a ≡ b) }
    ensures list { (bytes : List ℕ) (xs ys : List Frame) (a b : List ℕ)
        → Frames bytes xs a → Frames bytes ys b → length xs ≡ length ys → (xs ≡ ys) × (a ≡ b) }
{}

/// What a reader of frames was fed is spelled by the frames that it gave, one behind the other, and
/// what it was fed of the next one.
pub fn what_is_read_is_spelled()
    ensures { (fed : List ℕ) (frames : List (ℕ × Frame)) (reader : FrameReader) → IsBytes fed
        → HasReadFrames fed frames reader → Frames fed (frames_of frames) (rest_of reader) }
{}

/// Frames that are spelled one behind the other are read as these frames, each in its place,
/// whatever stands behind them.
pub fn what_is_spelled_is_read()
    ensures { (bytes : List ℕ) (frames : List Frame) (rest : List ℕ) → IsBytes bytes
        → Frames bytes frames rest → ReadsFrames bytes 0 frames rest }
{}

/// What a reader of frames was fed is read, as all of it, as the frames that the reader gave and the
/// beginning of the next; and each of these frames stands where the spelling of those before it ends.
pub fn what_was_fed_is_read()
    ensures whole { (fed : List ℕ) (frames : List (ℕ × Frame)) (reader : FrameReader)
        → HasReadFrames fed frames reader → AreReadAs fed frames (state_of reader) }
    ensures places { (fed : List ℕ) (frames : List (ℕ × Frame)) (reader : FrameReader)
        → IsBytes fed → HasReadFrames fed frames reader → frames ≡ placed 0 (frames_of frames) }
{}

/// Whole frames one behind the other do not end inside a frame, and no front of them breaks.
pub fn whole_frames_do_not_break()
    ensures inside { (bytes : List ℕ) (frames : List Frame) (place : ℕ) → IsBytes bytes
        → Frames bytes frames [] → EndInside bytes place → ⊥ }
    ensures breaks { (bytes rest : List ℕ) (frames : List Frame) → IsBytes (bytes ++ rest)
        → Frames (bytes ++ rest) frames [] → (place : ℕ) → BreakAt bytes place → ⊥ }
{}
