ghost use Rattle.std.specs.Prelude.{◌≡◌, ◌≤◌, length};
ghost use Rattle.home_tables.specs.Home.{kept, entry_at};
ghost use Rattle.rmem_calls.specs.Invalidating.{invalidated_all, due_count, due_pairs, InvalidateAnswers};

use home_tables::Home;
use message_network::Reply;
use page_latches::NodeSet;
use rm_base::{NodeId, PageId, PageList};

/// How many nodes are due at the page.
fn due_count(home: &Home, page: PageId) -> u32
    ensures count { result ≡ due_count (kept home.now page) }
    ensures bound { result ≤ 16 }
{
    match home.entry(page) {
        Some(entry) => entry.due.as_slice().len() as u32,
        None => 0,
    }
}

#[tactic(auto, using(std::proofs::lemmas::List::Sums::sum_by_more))]
fn due_pairs(home: &Home, pages: &[PageId]) -> u32
    requires { length pages.now ≤ 8 }
    ensures { result ≡ due_pairs home.now pages.now }
{
    let mut due = 0;
    for page in pages {
        due += due_count(home, *page);
    }
    due
}

fn invalidate_all(home: &mut Home, node: NodeId, pages: &[PageId], clear: &[NodeSet])
    requires { length clear.now ≡ length pages.now }
    ensures entries { entry_at home.new
        ≡ invalidated_all (entry_at home.old) node pages.now clear.now }
    ensures watermark { home.new.watermark ≡ home.old.watermark }
{
    for (i, page) in pages.iter().enumerate() {
        home.invalidate(*page, node, &clear[i]);
    }
}

fn answer(due: u32) -> Reply
    ensures { InvalidateAnswers due result }
{
    if due == 0 {
        Reply::Done
    } else {
        Reply::Started { due }
    }
}

/// The call `invalidate`: the node changes the pages. Beside each page stand the nodes that may have a
/// copy of it which they take for the latest.
pub fn invalidate(home: &mut Home, node: NodeId, pages: &PageList, clear: &[NodeSet]) -> Reply
    requires { length clear.now ≡ length pages.now }
    ensures entries { entry_at home.new
        ≡ invalidated_all (entry_at home.old) node pages.now clear.now }
    ensures watermark { home.new.watermark ≡ home.old.watermark }
    ensures answer { InvalidateAnswers (due_pairs home.new pages.now) result }
{
    invalidate_all(home, node, pages.as_slice(), clear);
    answer(due_pairs(home, pages.as_slice()))
}
