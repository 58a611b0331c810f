// The tally of a few lines.
use crate::{Caller, Carried, Tally};
use htss_defs::Shape;
use std::test::Fail;

const SHAPE: Shape = Shape {
    loaders: 2,
    searchers: 1,
    pages: 16,
    room: 100,
    log: 9,
    chain: 2,
};

const LOADER: Caller = Caller {
    loads: true,
    number: 2,
};

const SEARCHER: Caller = Caller {
    loads: false,
    number: 1,
};

#[test]
fn tells_what_may_stand_on_the_next_line(rt: HostRuntime) -> Result<(), Fail> {
    let mut tally = Tally::new();
    tally.note(
        LOADER,
        Carried {
            mark: 3,
            front: 0,
            own: 3,
            words: 11,
        },
    );
    let mut later = tally;
    later.enter(2);
    assert!(rt; tally.is_search_front(SEARCHER, 0));
    assert!(rt; !tally.is_new(LOADER, 3));
    assert!(rt; tally.is_new(LOADER, 4));
    assert!(rt; tally.is_room_left(SHAPE, LOADER, 89));
    assert!(rt; !tally.is_room_left(SHAPE, LOADER, 90));
    assert!(rt; !later.is_search_front(SEARCHER, 2));
    assert!(rt; later.is_search_front(SEARCHER, 3));
    assert!(rt; !later.is_refusing_front(SEARCHER, 2));
    assert!(rt; later.is_refusing_front(LOADER, 3));
    Ok(())
}
