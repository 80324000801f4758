//! What each lane works with, dealt before the lanes run and gathered after them.
ghost use Rattle.std.specs.Prelude.{◌≡◌, ◌+◌, ◌<◌, ◌≤◌, true, length, vec_len, vec_capacity};
ghost use Rattle.work_topology.specs.Parts.{first_seat, first_pass, AreDealt, DealsRest, AreTogether, AreGathered, GathersRest};
ghost use Rattle.work_topology.specs.Lists.{Each};
ghost use Rattle.claim_desk.specs.Facts.{IsSeatOf};
ghost use Rattle.batch_queue.specs.Facts.{IsPassHere};

use crate::post::{Gathered, Post, Report};
use batch_queue::{BatchQueue, QueuePass};
use claim_desk::{Desk, DeskSeat};
use memory_book::Purse;

// A post with a seat and a pass of its own for each report. The room for them is there.
fn deal_rest<L: Purse, O: Drop>(
    desk: &Desk,
    queue: &BatchQueue<L>,
    seat: &mut DeskSeat,
    pass: &mut QueuePass<L>,
    reports: Vec<Report<O>>,
    posts: &mut Vec<Post<L, O>>,
)
    requires few { vec_len reports ≤ 63 }
    requires empty { vec_len posts.old ≡ 0 }
    requires room { vec_len reports < vec_capacity posts.old }
    requires seat { seat.old ≡ first_seat desk.now 0 }
    requires pass { pass.old ≡ first_pass queue.now 0 }
    ensures dealt { DealsRest desk.now queue.now reports.items seat.new pass.new posts.new.items }
    ensures room { (vec_len posts.new ≡ vec_len reports) × (vec_capacity posts.new ≡ vec_capacity posts.old) }
{
    for report in reports {
        posts.push_reserved(Post {
            seat: desk.split(seat),
            queue: queue.split(pass),
            report,
        });
    }
}

/// Gives each report a seat and a pass, the first report the first ones. The room for the posts is there.
pub fn deal<L: Purse, O: Drop>(
    desk: &Desk,
    queue: &BatchQueue<L>,
    mut seat: DeskSeat,
    mut pass: QueuePass<L>,
    mut reports: Vec<Report<O>>,
    posts: &mut Vec<Post<L, O>>,
)
    requires some { 0 < length reports.items }
    requires few { vec_len reports ≤ 64 }
    requires empty { vec_len posts.old ≡ 0 }
    requires room { vec_len reports ≤ vec_capacity posts.old }
    requires seat { seat ≡ first_seat desk.now 0 }
    requires pass { pass ≡ first_pass queue.now 0 }
    ensures { AreDealt desk.now queue.now reports.items posts.new.items }
{
    let report = reports.remove(0);
    deal_rest(desk, queue, &mut seat, &mut pass, reports, posts);
    let post = Post {
        seat,
        queue: pass,
        report,
    };
    match posts.insert(0, post) {
        Ok(()) => {}
        Err(_) => unreachable!(),
    }
}

// Joins the seats and the passes of these posts into the first ones, and keeps their reports.
fn gather_rest<L: Purse, O: Drop>(
    desk: &Desk,
    queue: &BatchQueue<L>,
    seat: &mut DeskSeat,
    pass: &mut QueuePass<L>,
    posts: Vec<Post<L, O>>,
    reports: &mut Vec<Report<O>>,
)
    requires desk { IsSeatOf desk.now seat.old × (seat.old.first ≡ true) }
    requires queue { IsPassHere queue.now pass.old × (pass.old.first ≡ true) }
    requires here { Each (λ post. IsSeatOf desk.now post.seat × IsPassHere queue.now post.queue) posts.items }
    requires room { vec_len reports.old + vec_len posts ≤ vec_capacity reports.old }
    ensures { GathersRest desk.now posts.items seat.old pass.old reports.old.items seat.new pass.new reports.new.items }
{
    for post in posts {
        let Post {
            seat: other,
            queue: theirs,
            report,
        } = post;
        desk.join(seat, other);
        queue.join(pass, theirs);
        reports.push_reserved(report);
    }
}

/// Joins all seats and all passes into the first ones, and keeps the reports, lane after lane. The room for them is there.
pub fn gather<L: Purse, O: Drop>(
    desk: &Desk,
    queue: &BatchQueue<L>,
    mut posts: Vec<Post<L, O>>,
    mut reports: Vec<Report<O>>,
) -> Gathered<L, O>
    requires some { 0 < length posts.items }
    requires together { AreTogether desk.now queue.now posts.items }
    requires empty { vec_len reports ≡ 0 }
    requires room { vec_len posts ≤ vec_capacity reports }
    ensures { AreGathered desk.now queue.now posts.items result.seat result.pass result.reports.items }
{
    let Post {
        mut seat,
        queue: mut pass,
        report,
    } = posts.remove(0);
    reports.push_reserved(report);
    gather_rest(desk, queue, &mut seat, &mut pass, posts, &mut reports);
    Gathered {
        seat,
        pass,
        reports,
    }
}
