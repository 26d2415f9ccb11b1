// All pairs of configurations swept, and what is found told.
ghost use Rattle.std.specs.Prelude.{◌≡◌, ℕ, ◌+◌, ◌≤◌, length};
ghost use Rattle.model.specs.Promise.{pair_count};
ghost use Rattle.product.specs.View.{comparison_of};
ghost use Rattle.reply.specs.View.{answer_of};
ghost use Rattle.compare.specs.Budget.{Told, room_for};

use crate::headers::{header_words, write_headers};
use budget::Work;
use product::Product;
use reach::sweep;
use reply::Answer;

// `left` is what is left of the room; it is told with the answer.
pub(crate) fn sweep_pairs(product: &Product, work: u64, left: u64, room: &mut [u64]) -> Answer
    requires { room_for (pair_count (comparison_of product.now)) + 65536 ≤ length room.old }
    ensures { Told (comparison_of product.now) work left (answer_of room.new result) }
{
    let gap = header_words(&product.first.side) + header_words(&product.second.side);
    let mut spare = Work { left: work };
    let found = sweep(product, &mut spare, room, gap);
    let work = spare.left;
    let Ok(found) = found else {
        return Answer::Neither { work, room: left };
    };
    let Some(reached) = found else {
        return Answer::Alike { work, room: left };
    };
    // the headers fill the gap before the message
    let at = reached.at - gap as usize;
    write_headers(product, reached.start, room, at);
    Answer::Unlike {
        at,
        work,
        room: left,
    }
}
