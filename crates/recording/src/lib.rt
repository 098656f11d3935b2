// Recordings: a replay in turns over lent memory, and of a whole recording at once.
#![tactic(auto)]

ghost use Rattle.std.specs.Prelude.{◌≡◌, ◌++◌, ◌≤◌, length, take, drop};
ghost use Rattle.std.proofs.lemmas.List.Edits.{sets};
ghost use Rattle.device.specs.Host.{Ready};
ghost use Rattle.playback.specs.Replay.{version_fault};
ghost use Rattle.player.specs.Parts.{came, Gives};
ghost use Rattle.recording.specs.Turns.{start_of, behind_version, turn_as, taken_of, away_of, turn_of, Leaves, whole_play, replayed_of};

use device::Device;
use face::Answer;
use playback::Stage;
use player::Came;

// A replay between two turns.
#[derive(Clone, Copy)]
pub struct Stream {
    pub device: Device,
    pub stage: Stage,
}

// What a turn gives, refused or not, so that it is no Result: the answer's number (docs/DECISIONS.md, 62), the replay after it, how many bytes the window still holds, and how many the reply has.
#[derive(Clone, Copy)]
pub struct Turn {
    pub number: u8,
    pub stream: Stream,
    pub held: usize,
    pub made: usize,
}

// What the replay of a whole recording gives: the answer's number, as a turn's, how many bytes the reply has, and whether that is all of it.
#[derive(Clone, Copy)]
pub struct Replayed {
    pub number: u8,
    pub made: usize,
    pub whole: bool,
}

// A recording without its version byte.
fn version_fault(device: Device, out: &mut [u8]) -> Came
    requires { 4 ≤ length out.old }
    ensures { (result ≡ came device Stage.Over 0 4) × (out.new ≡ sets out.old 0 version_fault) }
{
    out[0] = 1;
    records::fault(out, 1);
    player::halt(device, Stage::Over, 0, 4)
}

// The records behind the version byte.
fn behind_version(
    device: Device,
    sectors: &mut [u8],
    rec: &[u8],
    last: bool,
    out: &mut [u8],
) -> Came
    requires { Ready device sectors.old × ((1 ≤ length rec.now) × (1 ≤ length out.old)) }
    ensures { Gives (behind_version last (length out.old) device sectors.old rec.now) result sectors.new out.old out.new }
{
    out[0] = 1;
    let behind = player::halt(device, Stage::Replaying, 1, 1);
    player::play(behind, sectors, rec, last, out)
}

// The version byte, where there is one, and the records behind it.
#[tactic(auto, unfolding(crate::specs::Turns::turn_as, crate::specs::Turns::open_of))]
fn begin(device: Device, sectors: &mut [u8], rec: &[u8], last: bool, out: &mut [u8]) -> Came
    requires { Ready device sectors.old }
    ensures { Gives (turn_as Stage.Opening last (length out.old) device sectors.old rec.now) result sectors.new out.old out.new }
{
    if out.len() < 4 {
        return player::halt(device, Stage::Opening, 0, 0);
    }
    match rec {
        [1, ..] => behind_version(device, sectors, rec, last, out),
        [] if !last => player::halt(device, Stage::Opening, 0, 0),
        _ => version_fault(device, out),
    }
}

// How far the bytes bring a replay that stands there.
#[tactic(auto, unfolding(crate::specs::Turns::turn_as))]
fn part(
    stage: Stage,
    device: Device,
    sectors: &mut [u8],
    rec: &[u8],
    last: bool,
    out: &mut [u8],
) -> Came
    requires { Ready device sectors.old }
    ensures { Gives (turn_as stage last (length out.old) device sectors.old rec.now) result sectors.new out.old out.new }
{
    match stage {
        Stage::Opening => begin(device, sectors, rec, last, out),
        Stage::Replaying => {
            let here = player::halt(device, Stage::Replaying, 0, 0);
            player::play(here, sectors, rec, last, out)
        }
        Stage::Over => player::halt(device, Stage::Over, 0, 0),
    }
}

// The bytes from `from` up to `to` move to the front; those behind stay.
fn keep(window: &mut [u8], from: usize, to: usize)
    requires { (from ≤ to) × (to ≤ length window.old) }
    ensures { window.new ≡ sets window.old 0 (drop from (take to window.old)) }
{
    window.copy_within(from..to, 0);
}

impl Stream {
    // A replay before its first byte.
    pub fn start() -> Stream
        ensures { result ≡ start_of }
    {
        Stream {
            device: playback::replay_device(),
            stage: Stage::Opening,
        }
    }

    fn turned_away(self, held: usize, answer: Answer) -> Turn
        ensures { result ≡ away_of self held answer }
    {
        Turn {
            number: answer.number(),
            stream: self,
            held,
            made: 0,
        }
    }

    // A turn of a device in shape over its memory.
    fn taken(
        self,
        sectors: &mut [u8],
        window: &mut [u8],
        held: usize,
        last: bool,
        out: &mut [u8],
    ) -> Turn
        requires { Ready self.device sectors.old }
        ensures { Leaves (taken_of window.old (take held window.old) (turn_as self.stage last (length out.old) self.device sectors.old (take held window.old))) result sectors.new window.new out.old out.new }
    {
        let end = held.min(window.len());
        let p = part(self.stage, self.device, sectors, &window[..end], last, out);
        keep(window, p.taken, end);
        Turn {
            number: 0,
            stream: Stream {
                device: p.device,
                stage: p.stage,
            },
            held: end - p.taken,
            made: p.made,
        }
    }

    // One turn: the first `held` bytes of the window, into `out`; `last` where no byte comes behind them. The window is fixed memory, whose
    // other bytes the next read fills, so a length stands beside it.
    #[tactic(auto, unfolding(crate::specs::Turns::turn_of))]
    pub fn turn(
        self,
        sectors: &mut [u8],
        window: &mut [u8],
        held: usize,
        last: bool,
        out: &mut [u8],
    ) -> Turn
        ensures { Leaves (turn_of self sectors.old window.old held last (length out.old)) result sectors.new window.new out.old out.new }
    {
        if !self.device.shaped() {
            return self.turned_away(held, Answer::OutOfShape);
        }
        if sectors.len() != 512 * (self.device.face.settled.geometry.capacity() as usize) {
            return self.turned_away(held, Answer::WrongLength);
        }
        self.taken(sectors, window, held, last, out)
    }
}

// The reply to a whole recording, over memory of 64 sectors that is cleared first, as far as there is room for it.
pub fn replay(rec: &[u8], sectors: &mut [u8], out: &mut [u8]) -> Replayed
    ensures { (result ≡ replayed_of rec.now sectors.old (length out.old))
        × ((sectors.new ≡ (whole_play rec.now sectors.old (length out.old)).sectors)
        × (out.new ≡ (whole_play rec.now sectors.old (length out.old)).reply ++ drop result.made out.old)) }
{
    if sectors.len() != 32768 {
        return Replayed {
            number: Answer::WrongLength.number(),
            made: 0,
            whole: false,
        };
    }
    block::zero(sectors);
    let stream = Stream::start();
    let p = part(stream.stage, stream.device, sectors, rec, true, out);
    Replayed {
        number: Answer::Done.number(),
        made: p.made,
        whole: p.stage.over(),
    }
}
