// One push for every reader and writer: what one byte does is theirs, by a trait.
ghost use Rattle.std.specs.Prelude.{◌≡◌, ℕ, ◌≤◌, length, ltb};
ghost use Rattle.desk.specs.Push.{Next};
ghost use Rattle.desk.specs.Room.{with_front};
ghost use Rattle.desk.specs.Steps.{released, step_out, mark_list, Runs};

// The bytes taken of the chunk, and the bytes and marks written.
#[derive(Clone, Copy, Debug, PartialEq, Eq)]
pub struct Pushed {
    pub taken: usize,
    pub written: usize,
    pub marked: usize,
}

// What one byte does: the state behind it, how many bytes it releases (itself last), and whether it ends a unit.
#[derive(Clone, Copy, Debug, PartialEq, Eq)]
pub struct Step<S> {
    pub after: S,
    pub count: usize,
    pub ends: bool,
}

// What each byte does in each state.
pub trait Steps: Copy {
    ghost next: { Next Self };

    ghost LEAD: { ℕ };

    // What goes before the byte, where more than it is released.
    const LEAD: u8;

    // None: the byte is forbidden there.
    fn step(self, b: u8) -> Option<Step<Self>>
        ensures { step_out LEAD b result ≡ next self b };
}

// Writes what a byte releases, itself last, at the front of the room.
fn put(room: &mut [u8], lead: u8, count: usize, b: u8)
    requires { count ≤ length room.old }
    ensures { room.new ≡ with_front room.old (released lead count b) }
{
    match count {
        0 => {}
        1 => room[0] = b,
        _ => {
            room[..count - 1].fill(lead);
            room[count - 1] = b;
        }
    }
}

// Writes a mark, where there is one, at the front of the room.
fn put_mark(room: &mut [u64], ends: bool, mark: u64)
    requires { length (mark_list ends mark) ≤ length room.old }
    ensures { room.new ≡ with_front room.old (mark_list ends mark) }
{
    if ends {
        room[0] = mark;
    }
}

// Is there a mark, and no room for it? Asked of the flag, and not of a count of marks, since most bytes end no unit.
fn lacks_mark(ends: bool, left: usize) -> bool
    ensures { result ≡ ltb left (length (mark_list ends 0)) }
{
    ends && left == 0
}

// Takes bytes while all that the next one releases fits. Err: the next one is forbidden. A mark is the count of bytes written before a unit's end.
pub fn run<S: Steps>(
    state: &mut S,
    chunk: &[u8],
    room: &mut [u8],
    marks: &mut [u64],
) -> Result<Pushed, Pushed>
    ensures { Runs S.next state.old chunk.now room.old marks.old state.new room.new marks.new result }
{
    let mut pushed = Pushed {
        taken: 0,
        written: 0,
        marked: 0,
    };
    for &b in chunk {
        let Some(step) = state.step(b) else {
            return Err(pushed);
        };
        let left = marks.len() - pushed.marked;
        if step.count > room.len() - pushed.written || lacks_mark(step.ends, left) {
            break;
        }
        let mark = pushed.written as u64;
        put_mark(&mut marks[pushed.marked..], step.ends, mark);
        put(&mut room[pushed.written..], S::LEAD, step.count, b);
        *state = step.after;
        // By hand: the three counts are the answer, and the loop may stop before the chunk does.
        pushed.taken += 1;
        pushed.written += step.count;
        pushed.marked += usize::from(step.ends);
    }
    Ok(pushed)
}
