// The loop over a recording's records: each is one action of the device.
#![tactic(auto)]

ghost use Rattle.std.specs.Prelude.{◌≡◌, ◌+◌, ◌≤◌, length};
ghost use Rattle.device.specs.Host.{Ready};
ghost use Rattle.loops.specs.Ways.{stand_at, Stands};
ghost use Rattle.playback.specs.Replay.{cut_stage};
ghost use Rattle.playback.specs.Loops.{whole_of};
ghost use Rattle.player.specs.Parts.{part_of, came, stretch_way, course_of, Gives, cut_made, cut_reply};

use device::Device;
use face::{Face, Hot};
use playback::Stage;
use records::NoRecord;

// How far a part of a recording came.
#[derive(Clone, Copy)]
pub struct Came {
    pub device: Device,
    pub stage: Stage,
    pub taken: usize,
    pub made: usize,
}

// Where the loop stands: the device, the next record's place, its reply's, and how many replies fit behind that one.
#[derive(Clone, Copy)]
struct Course {
    pub device: Device,
    pub at: usize,
    pub put: usize,
    pub left: usize,
}

// The device, of which the inner loops held the hot part and the buffer apart.
fn whole(device: Device, hot: Hot, buffer: [u8; 512]) -> Device
    ensures { result ≡ whole_of device hot buffer }
{
    let face = device.face.with_buffer(buffer).with_hot(hot);
    Device { face, ..device }
}

pub fn halt(device: Device, stage: Stage, taken: usize, made: usize) -> Came
    ensures { result ≡ came device stage taken made }
{
    Came {
        device,
        stage,
        taken,
        made,
    }
}

impl Course {
    fn halts(self, stage: Stage) -> Came
        ensures { result ≡ came self.device stage self.at self.put }
    {
        halt(self.device, stage, self.at, self.put)
    }

    // The bytes go on with no whole record: a fault, where no more of them come.
    #[tactic(auto, unfolding(crate::specs::Parts::cut_reply, crate::specs::Parts::cut_made))]
    fn cut(self, last: bool, out: &mut [u8]) -> Came
        requires { self.put + 3 ≤ length out.old }
        ensures { (result ≡ came self.device (cut_stage last) self.at (cut_made last self.put)) × (out.new ≡ cut_reply last out.old self.put) }
    {
        if last {
            records::fault(out, self.put);
            return halt(self.device, Stage::Over, self.at, self.put + 3);
        }
        self.halts(Stage::Replaying)
    }

    // The records from there on that the hot part and the buffer settle.
    fn stretch(self, rec: &[u8], out: &mut [u8]) -> Course
        requires { Stands rec.now out.old (stand_at self.device.face.hot self.at self.put self.left) }
        ensures way { (result ≡ course_of self.device (stretch_way self.device self.at self.put self.left rec.now out.old)) × (out.new ≡ (stretch_way self.device self.at self.put self.left rec.now out.old).out) }
        ensures stands { Stands rec.now out.new (stand_at result.device.face.hot result.at result.put result.left) }
        ensures fewer { result.left ≤ self.left }
    {
        let face = self.device.face;
        let mut buffer = face.buffer;
        let here = loops::standing(face.hot, self.at, self.put, self.left);
        let far = loops::swift(here, &mut buffer, rec, out);
        Course {
            device: whole(self.device, far.hot, buffer),
            at: far.at,
            put: far.put,
            left: far.left,
        }
    }
}

// Replays whole records from where it came on, until the reply is full or the bytes are used up. Device and memory are held apart here,
// so that Ready, which ties them, is a clause as Memory is (docs/DECISIONS.md, 65).
pub fn play(from: Came, sectors: &mut [u8], rec: &[u8], last: bool, out: &mut [u8]) -> Came
    requires { Ready from.device sectors.old × ((from.taken ≤ length rec.now) × (from.made ≤ length out.old)) }
    ensures { Gives (part_of last from.device sectors.old rec.now from.taken out.old from.made) result sectors.new out.old out.new }
{
    let mut course = Course {
        device: from.device,
        at: from.taken,
        put: from.made,
        left: (out.len() - from.made) / 5,
    };
    // A stretch takes as many records as it settles, so that no range gives the places.
    while 0 < course.left {
        course.left -= 1;
        course = course.stretch(rec, out);
        match records::next(&rec[course.at..]) {
            Ok(record) => {
                let outcome = course.device.act(record.action, sectors);
                records::reply(out, course.put, outcome.number, outcome.value);
                course.device = outcome.device;
                course.at += record.size;
                course.put += 5;
            }
            Err(NoRecord::Nothing) => return course.halts(Stage::ended(last)),
            Err(NoRecord::Part) => return course.cut(last, out),
            Err(NoRecord::Malformed) => return course.cut(true, out),
        }
    }
    course.halts(Stage::Replaying)
}
