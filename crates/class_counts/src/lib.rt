// A list of the states' classes judged, the seats counted by it, and their line in a room (document 02, 2026-05).
#![tactic(auto)]

ghost use Rattle.std.specs.Prelude.{◌≡◌, ◌≤◌, length, take};
ghost use Rattle.entry.specs.Said.{says as text};
ghost use Rattle.room.specs.Answer.{Entered};
ghost use Rattle.classes.specs.Classes.{class_of as class_of_said, class_counts, classes_text};
ghost use Rattle.classes.specs.ClassesSaid.{judged_classes};
ghost use Rattle.classes.specs.ClassesRoom.{classes_room};

use card::Refusal;
use card::limits::{PUBLIC_CLASSES, TOP_CLASS};
use card::refusals::{ROOM_TOO_SMALL, WRONG_CLASSES};
use lines::put_line;
use seating::{count_by, judge_each};

// Is it a list for a card of top state `top`?
pub fn judge_classes(classes: &[u8], top: usize) -> Result<(), Refusal>
    ensures { result ≡ judged_classes top classes.now }
{
    if top < classes.len() {
        if classes.len() - top == 1 {
            return judge_each(classes, TOP_CLASS, WRONG_CLASSES);
        }
    }
    Err(Refusal {
        number: WRONG_CLASSES,
        place: classes.len(),
    })
}

// The class of a state, or 0 where the list has none for it.
fn class_of(classes: &[u8], state: usize) -> usize
    ensures { result ≡ class_of_said classes.now state }
{
    classes.get(state).copied().map_or(0, usize::from)
}

// How many of the first n seats are in each class; a class above the top is passed over.
pub fn count_classes(seats: &[u8], n: usize, classes: &[u8]) -> [usize; PUBLIC_CLASSES]
    ensures { result ≡ class_counts classes.now (take n seats.now) }
{
    count_by(seats, n, |state| class_of(classes, usize::from(state)))
}

// The line of some class counts: put into a room of no bytes it tells its length, and then it is stored where it fits.
pub fn enter_classes(room: &mut [u8], counts: &[usize]) -> Result<usize, Refusal>
    requires { length (classes_text counts.now) ≤ classes_room }
    ensures { Entered room.old room.new (text (classes_text counts.now)) result }
{
    let mut nothing: [u8; 0] = [0; 0];
    let need = put_line(&mut nothing, 0, b"classes", counts);
    if room.len() < need {
        return Err(Refusal {
            number: ROOM_TOO_SMALL,
            place: need,
        });
    }
    Ok(put_line(room, 0, b"classes", counts))
}
