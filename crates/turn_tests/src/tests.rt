use super::*;
use std::process::Abort;
use std::test::Fail;

// The notes of each owner have the numbers from 0 to below `count`, in order, and there are no others.
fn assert_notes(rt: &impl Abort, diary: &Diary, owners: usize, count: u32) {
    let mut next = [0u32; 4];
    for note in &diary.notes {
        let owner = note.owner as usize;
        assert!(rt; owner < owners && owner < 4);
        assert!(rt; next[owner] == note.number);
        next[owner] = note.number.wrapping_add(1);
    }
    for number in next.iter().take(owners) {
        assert!(rt; *number == count);
    }
}

#[test]
fn two_owners(rt: HostRuntime) -> Result<(), Fail> {
    let (turn, mut passes) = open(rt.alloc(), 7, 3)?;
    let mut reader = last_pass(&turn, &mut passes);
    let second = last_pass(&turn, &mut passes);
    let first = last_pass(&turn, &mut passes);
    assert!(&rt; write_in_scope(&rt, &turn, first, second, 1000));
    let diary = turn.take(&rt, &mut reader);
    assert_notes(&rt, &diary, 2, 1000);
    turn.give(&mut reader, diary);
    Ok(())
}

// Two threads hand the turn to and fro so often that each has to sleep. If one is not woken it waits for
// the other, and the other for it: the test does not end.
#[test]
fn who_sleeps_is_woken(rt: HostRuntime) -> Result<(), Fail> {
    let (turn, mut passes) = open(rt.alloc(), 7, 2)?;
    let second = last_pass(&turn, &mut passes);
    let first = last_pass(&turn, &mut passes);
    assert!(&rt; write_in_scope(&rt, &turn, first, second, 20_000));
    Ok(())
}

#[test]
fn four_passes_in_four_threads(rt: HostRuntime) -> Result<(), Fail> {
    let (turn, mut passes) = open(rt.alloc(), 7, 5)?;
    let mut reader = last_pass(&turn, &mut passes);
    let fourth = last_pass(&turn, &mut passes);
    let third = last_pass(&turn, &mut passes);
    let second = last_pass(&turn, &mut passes);
    let first = last_pass(&turn, &mut passes);
    assert!(&rt; write_in_two_scopes(&rt, &turn, (first, second), (third, fourth), 250));
    let diary = turn.take(&rt, &mut reader);
    assert!(&rt; diary.title == 7);
    assert_notes(&rt, &diary, 4, 250);
    turn.give(&mut reader, diary);
    Ok(())
}

#[test]
fn closing_hands_the_value_out(rt: HostRuntime) -> Result<(), Fail> {
    let (turn, passes) = open(rt.alloc(), 7, 4)?;
    match turn.close(passes) {
        Ok(diary) => assert!(&rt; diary.title == 7),
        Err(_) => panic!(&rt; "no memory"),
    }
    Ok(())
}

#[test]
fn active_passes_are_counted(rt: HostRuntime) -> Result<(), Fail> {
    let (turn, mut passes) = open(rt.alloc(), 7, 2)?;
    let mut second = last_pass(&turn, &mut passes);
    let mut first = last_pass(&turn, &mut passes);
    assert!(&rt; look(&rt, &turn, &mut first).0 == 0);
    assert!(&rt; set_active(&rt, &turn, &mut first, true) == 1);
    assert!(&rt; set_active(&rt, &turn, &mut second, true) == 2);
    assert!(&rt; first.is_active());
    assert!(&rt; set_active(&rt, &turn, &mut first, false) == 1);
    assert!(&rt; !first.is_active());
    assert!(&rt; second.is_active());
    Ok(())
}

#[test]
fn late_pass_sees_what_another_wrote(rt: HostRuntime) -> Result<(), Fail> {
    let (turn, mut passes) = open(rt.alloc(), 7, 2)?;
    let mut second = last_pass(&turn, &mut passes);
    let mut first = last_pass(&turn, &mut passes);
    assert!(&rt; second.number() == 1);
    write_note(&rt, &turn, &mut first, 0);
    assert!(&rt; look(&rt, &turn, &mut second).1 == 1);
    Ok(())
}
