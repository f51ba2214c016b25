use super::*;
use std::test::Fail;

// After the bumps of 4 and 2 a plain list of 1 to 5 is 2, 4, 1, 3, 5.
#[test]
fn a_table_of_bumps(rt: HostRuntime) -> Result<(), Fail> {
    let mut queue = Queue::new(rt.alloc(), 5)?;
    assert_eq!(rt; queue.next_free(&[false; 5]), Some(1));
    queue.bump(4);
    queue.bump(2);
    assert_eq!(rt; queue.next_free(&[false; 5]), Some(2));
    assert_eq!(rt;
        queue.next_free(&[false, true, false, false, false]),
        Some(4)
    );
    assert_eq!(rt;
        queue.next_free(&[false, true, false, true, false]),
        Some(1)
    );
    assert_eq!(rt; queue.next_free(&[true, true, false, true, false]), Some(3));
    assert_eq!(rt; queue.next_free(&[true, true, true, true, false]), Some(5));
    assert_eq!(rt; queue.next_free(&[true; 5]), None);
    Ok(())
}

#[test]
fn the_front_bumped_again_stays(rt: HostRuntime) -> Result<(), Fail> {
    let mut queue = Queue::new(rt.alloc(), 2)?;
    queue.bump(1);
    assert_eq!(rt; queue.next_free(&[false, false]), Some(1));
    queue.bump(2);
    queue.bump(2);
    assert_eq!(rt; queue.next_free(&[false, false]), Some(2));
    assert_eq!(rt; queue.next_free(&[false, true]), Some(1));
    Ok(())
}

// The cursor stands at 1, then 1 moves away from under it, and comes back where it is freed.
#[test]
fn the_cursor_goes_back(rt: HostRuntime) -> Result<(), Fail> {
    let mut queue = Queue::new(rt.alloc(), 3)?;
    assert_eq!(rt; queue.next_from_cursor(&[false; 3]), Some(1));
    queue.bump(1);
    queue.freed(1);
    assert_eq!(rt; queue.next_free(&[false; 3]), Some(1));
    Ok(())
}

#[test]
fn no_variable_at_all(rt: HostRuntime) -> Result<(), Fail> {
    let mut queue = Queue::new(rt.alloc(), 0)?;
    assert_eq!(rt; queue.next_free(&[]), None);
    assert_eq!(rt; queue.next_from_cursor(&[]), None);
    Ok(())
}

// 5, 1 and 4 stand as 1, 4, 5 in the queue, and so they do in front of 2 and 3.
#[test]
fn many_keep_their_order(rt: HostRuntime) -> Result<(), Fail> {
    let mut queue = Queue::new(rt.alloc(), 5)?;
    queue.bump_all(rt.alloc(), &[5, 1, 4])?;
    assert_eq!(rt; queue.next_free(&[false; 5]), Some(1));
    assert_eq!(rt;
        queue.next_free(&[true, false, false, false, false]),
        Some(4)
    );
    assert_eq!(rt;
        queue.next_free(&[true, false, false, true, false]),
        Some(5)
    );
    assert_eq!(rt; queue.next_free(&[true, false, false, true, true]), Some(2));
    assert_eq!(rt; queue.next_free(&[true, true, false, true, true]), Some(3));
    Ok(())
}
