use crate::{How, Obstacle, Outcome, PoolAnswer, can_end};
use fetch_steps::Action;
use rm_base::{NodeId, PageId};

#[test]
fn only_an_access_can_be_lost_or_unseen(rt: HostRuntime) {
    let look = Action::Look(PageId::default());
    let append = Action::Append;
    assert!(rt; can_end(&look, How::Lost) && can_end(&look, How::Unseen));
    assert!(rt; can_end(&append, How::Made));
    assert!(rt; !can_end(&append, How::Lost) && !can_end(&Action::Install, How::Unseen));
}

#[test]
fn a_node_learns_of_an_append_at_once_or_as_its_answer_arrives(rt: HostRuntime) {
    let at_once = PoolAnswer::Did(Outcome::Kept(93));
    let arrived = PoolAnswer::Accepted(NodeId::default(), Outcome::Kept(93));
    assert_eq!(rt; at_once.kept(), Some(93));
    assert_eq!(rt; arrived.kept(), Some(93));
    assert_eq!(rt; PoolAnswer::Did(Outcome::Went).kept(), None);
    assert!(rt; PoolAnswer::Did(Outcome::Met(Obstacle::Lost)).meets());
    assert!(rt; !arrived.meets());
}
