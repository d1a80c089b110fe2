use crate::call_lists::replies;
use std::alloc::{AllocError, Global};
use std::test::Fail;
use vale_base::Kind;
use vale_heap_calls::{Call, Named, Reply, Values};

fn no_values(alloc: Global) -> Values {
    Values::from_vec(Vec::new(alloc))
}

fn make(alloc: Global, kind: u32) -> Call {
    Call::Make(Kind(kind), no_values(alloc))
}

// Makes an object in the first region, one in a region that is merged and one in a region that is cleared.
fn three_objects(alloc: Global) -> Result<Vec<Call>, AllocError> {
    Ok(vec![in alloc;
        make(alloc, 7),
        Call::FreezeIn,
        make(alloc, 8),
        Call::FreezeMerge,
        Call::FreezeIn,
        make(alloc, 9),
        Call::FreezeClear,
    ]?)
}

fn looks_and_ends(alloc: Global) -> Result<Vec<Call>, AllocError> {
    let values = Values::from_vec(vec![in alloc; Named::Int(-1), Named::Own(1), Named::Ref(2)]?);
    Ok(vec![in alloc;
        Call::Look(0),
        Call::Look(1),
        Call::Look(2),
        Call::Change(0, values),
        Call::Look(0),
        Call::End(1),
        Call::Look(1),
        Call::End(1),
        Call::Change(1, no_values(alloc)),
        make(alloc, 1),
    ]?)
}

// What a reply says, and of an object that is alive its kind.
fn told(reply: &Reply) -> (u8, u32) {
    match reply {
        Reply::Made => MADE,
        Reply::NoPage => NO_PAGE,
        Reply::Alive(Kind(kind)) => (ALIVE, *kind),
        Reply::Dead => DEAD,
        Reply::Done => DONE,
    }
}

const MADE: (u8, u32) = (0, 0);

const NO_PAGE: (u8, u32) = (1, 0);

const ALIVE: u8 = 2;

const DEAD: (u8, u32) = (3, 0);

const DONE: (u8, u32) = (4, 0);

// What the first list is answered.
const EARLY: [(u8, u32); 7] = [MADE, DONE, MADE, DONE, DONE, MADE, DONE];

// What the second list is answered.
const LATE: [(u8, u32); 10] = [
    (ALIVE, 7),
    (ALIVE, 8),
    DEAD,
    (ALIVE, 7),
    (ALIVE, 7),
    (ALIVE, 8),
    DEAD,
    DEAD,
    DEAD,
    MADE,
];

// Whether these are the replies, one for one.
fn are_told(replies: &[Reply], wanted: &[(u8, u32)]) -> bool {
    if replies.len() != wanted.len() {
        return false;
    }
    for (i, reply) in replies.iter().enumerate() {
        if told(reply) != wanted[i] {
            return false;
        }
    }
    true
}

#[test]
fn a_list_of_calls_is_answered_by_names_that_never_return(rt: HostRuntime) -> Result<(), Fail> {
    let calls = three_objects(rt.alloc())?;
    let later = looks_and_ends(rt.alloc())?;
    let Some((early, late)) = replies(rt.alloc(), 3, 2, u64::MAX, calls, later)? else {
        panic!(rt; "the calls may be made")
    };
    assert!(rt; are_told(early.as_slice(), &EARLY));
    assert!(rt; are_told(late.as_slice(), &LATE));
    Ok(())
}

// As many objects as a page has, and one more.
fn sixty_five(alloc: Global) -> Result<Vec<Call>, AllocError> {
    let mut calls = Vec::new(alloc);
    for kind in 0..65 {
        calls.push(make(alloc, kind))?;
    }
    Ok(calls)
}

#[test]
fn a_list_of_calls_finds_no_page_where_each_frame_is_full(rt: HostRuntime) -> Result<(), Fail> {
    let calls = sixty_five(rt.alloc())?;
    let later = vec![in rt.alloc(); Call::End(63), make(rt.alloc(), 0), Call::Look(63)]?;
    let Some((early, late)) = replies(rt.alloc(), 1, 1, 1, calls, later)? else {
        panic!(rt; "the calls may be made")
    };
    assert!(rt;
        matches!(
            early.as_slice(),
            [Reply::Made, .., Reply::Made, Reply::NoPage]
        )
    );
    assert!(rt;
        matches!(
            late.as_slice(),
            [Reply::Alive(Kind(63)), Reply::Made, Reply::Dead]
        )
    );
    Ok(())
}
