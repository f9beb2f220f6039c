//! A session: keys are taken one byte at a time, and after each the job or the search
//! that it began is worked. C-c stops a search.
ghost use Rattle.std.specs.Prelude.{◌≡◌, ◌≤◌, true, false, None, Some, IfOk, IfNone, OnOk, slice_get};
ghost use Rattle.tree_trait.specs.Answers.{HasRisen, HasCause, IfKnown};
ghost use Rattle.mc_desk.specs.Desks.{IsFresh, KeepsKeys, MayTake, is_over, seeks};
ghost use Rattle.mc_desk.specs.Searches.{KeepsSource};
ghost use Rattle.mc_main.specs.KeysRead.{IsCut, LeavesOthers, StopIsNext, TookAll, bytes_given, left_of};

use mc_desk::{Desk, DeskError, DeskReply, STOP_BYTE, Tag};
use std::alloc::Global;
use tree_trait::{Clock, Sink, Source, SourceFault, Spawner, Tree};

/// Why a session ended.
#[derive(Clone, Copy, Debug, Drop, PartialEq, Eq)]
pub enum SessionEnd {
    /// The quit key.
    Quit,
    /// The end of the keys.
    KeysEnded,
    KeysFailed,
    ScreenFailed,
    NoMemory,
}

/// Runs a session from its opening frame to its end.
pub fn run_session<N: Tag, T: Tree, K: Source, S: Sink, P: Spawner, C: Clock>(
    alloc: Global,
    desk: &mut Desk<N, T, S, P>,
    keys: &mut K,
    clock: &C,
) -> SessionEnd
    requires fresh { IsFresh desk.old }
    requires stream { K.left keys.old ≡ N.stream }
    ensures keys_failed { result ≡ SessionEnd.KeysFailed
        → HasRisen (K.fault_count keys.old) (K.fault_count keys.new) }
    ensures left { LeavesOthers N.stream desk.new.taken (Some result) (K.left keys.new) }
    ensures cut { desk.new.tally.closed ≡ true → IsCut (Some result) }
    ensures quit { result ≡ SessionEnd.Quit → desk.new.quit ≡ true }
    ensures ended { result ≡ SessionEnd.KeysEnded → TookAll N.stream (K.left keys.new) }
{
    for _ in 0..u64::MAX {
        if let Some(end) = take_turn(alloc, desk, keys, clock) {
            return end;
        }
    }
    // No history has room for so many keys.
    SessionEnd::NoMemory
}

/// Works what is due, makes a search to its end, or up to C-c, then takes one byte and works its keys. The
/// answer is the session's end, if it has come.
fn take_turn<N: Tag, T: Tree, K: Source, S: Sink, P: Spawner, C: Clock>(
    alloc: Global,
    desk: &mut Desk<N, T, S, P>,
    keys: &mut K,
    clock: &C,
) -> Option<SessionEnd>
    requires goes_on { is_over desk.old ≡ false }
    requires left { K.left keys.old ≡ left_of N.stream desk.old.taken }
    ensures goes_on { IfNone result (is_over desk.new ≡ false) }
    ensures later { K.fault_count keys.old ≤ K.fault_count keys.new }
    ensures keys_failed { result ≡ Some SessionEnd.KeysFailed
        → HasRisen (K.fault_count keys.old) (K.fault_count keys.new) }
    ensures left { LeavesOthers N.stream desk.new.taken result (K.left keys.new) }
    ensures cut { desk.new.tally.closed ≡ true → IsCut result }
    ensures quit { result ≡ Some SessionEnd.Quit → desk.new.quit ≡ true }
    ensures ended { result ≡ Some SessionEnd.KeysEnded → TookAll N.stream (K.left keys.new) }
{
    if let Err(error) = work_due(alloc, desk, clock) {
        return Some(failed(error));
    }
    if let Err(error) = seek_till_stopped(alloc, desk, keys) {
        return Some(failed(error));
    }
    let byte = match take_byte(desk, keys) {
        Err(SourceFault) => return Some(SessionEnd::KeysFailed),
        Ok(None) => return Some(SessionEnd::KeysEnded),
        Ok(Some(byte)) => byte,
    };
    if let Err(error) = seek_before(alloc, desk, keys, byte) {
        return Some(failed(error));
    }
    match desk.byte(alloc, byte, clock.now()) {
        Err(error) => Some(failed(error)),
        Ok(DeskReply::Quit) => Some(SessionEnd::Quit),
        Ok(_) => None,
    }
}

/// Takes one byte, or none at the end of the keys. It may wait, so on the desk nothing is
/// due, and no search goes on unless C-c is the next byte.
fn take_byte<N: Tag, T: Tree, K: Source, S: Sink, P: Spawner>(
    _desk: &Desk<N, T, S, P>,
    keys: &mut K,
) -> Result<Option<u8>, SourceFault>
    requires worked { _desk.now.tally.due ≡ None }
    requires sought { seeks _desk.now ≡ true → StopIsNext (K.left keys.old) }
    ensures first { IfKnown (K.left keys.old) (λ bytes. IfOk result (λ byte. byte ≡ slice_get bytes 0)) }
    ensures left { K.left keys.new ≡ left_of (K.left keys.old) (bytes_given result) }
    ensures cause { HasCause (record {}) (K.fault_count keys.old) (K.fault_count keys.new) result }
{
    let mut room = [0u8; 1];
    let count = match keys.take(&mut room) {
        Ok(count) => count,
        Err(fault) => return Err(fault),
    };
    match count {
        0 => Ok(None),
        _ => Ok(Some(room[0])),
    }
}

/// Works what is due before the next key: the job is stepped until it isn't ready, and looked at.
fn work_due<N: Tag, T: Tree, S: Sink, P: Spawner, C: Clock>(
    alloc: Global,
    desk: &mut Desk<N, T, S, P>,
    clock: &C,
) -> Result<(), DeskError>
    ensures keys { KeepsKeys desk.old desk.new }
    ensures over { OnOk result (is_over desk.new ≡ is_over desk.old) }
    ensures looked { OnOk result (desk.new.tally.due ≡ None) }
{
    match desk.due() {
        None => Ok(()),
        Some(job) => {
            while desk.is_ready(job) {
                desk.step(alloc, 0);
            }
            desk.look(alloc, clock.now())
        }
    }
}

/// Makes the search that goes on, if one does, to its end, or up to where C-c is the next byte. The list of
/// what it finds grows on the screen. Nothing is taken.
fn seek_till_stopped<N: Tag, T: Tree, K: Source, S: Sink, P: Spawner>(
    alloc: Global,
    desk: &mut Desk<N, T, S, P>,
    keys: &mut K,
) -> Result<(), DeskError>
    requires looked { desk.old.tally.due ≡ None }
    ensures keys { KeepsKeys desk.old desk.new }
    ensures over { OnOk result (is_over desk.new ≡ is_over desk.old) }
    ensures looked { OnOk result (desk.new.tally.due ≡ None) }
    ensures sought { OnOk result (seeks desk.new ≡ true → StopIsNext (K.left keys.new)) }
    ensures source { KeepsSource (K.left keys.old) (K.left keys.new) (K.fault_count keys.old)
        (K.fault_count keys.new) }
{
    while desk.is_seeking() {
        desk.seek(alloc, keys)?;
        if keys.next_is(STOP_BYTE) {
            return Ok(());
        }
    }
    Ok(())
}

/// Makes the search that goes on, if one does, to its end before this byte is worked, which was taken
/// already, unless it is C-c at the beginning of a key.
fn seek_before<N: Tag, T: Tree, K: Source, S: Sink, P: Spawner>(
    alloc: Global,
    desk: &mut Desk<N, T, S, P>,
    keys: &mut K,
    byte: u8,
) -> Result<(), DeskError>
    requires looked { desk.old.tally.due ≡ None }
    ensures keys { KeepsKeys desk.old desk.new }
    ensures over { OnOk result (is_over desk.new ≡ is_over desk.old) }
    ensures looked { OnOk result (desk.new.tally.due ≡ None) }
    ensures sought { OnOk result (MayTake byte desk.new) }
    ensures source { KeepsSource (K.left keys.old) (K.left keys.new) (K.fault_count keys.old)
        (K.fault_count keys.new) }
{
    if byte == STOP_BYTE && desk.is_between_keys() {
        return Ok(());
    }
    seek_to_end(alloc, desk, keys)
}

/// Makes the search to its end, if one goes on.
fn seek_to_end<N: Tag, T: Tree, K: Source, S: Sink, P: Spawner>(
    alloc: Global,
    desk: &mut Desk<N, T, S, P>,
    keys: &mut K,
) -> Result<(), DeskError>
    requires looked { desk.old.tally.due ≡ None }
    ensures keys { KeepsKeys desk.old desk.new }
    ensures over { OnOk result (is_over desk.new ≡ is_over desk.old) }
    ensures looked { OnOk result (desk.new.tally.due ≡ None) }
    ensures sought { OnOk result (seeks desk.new ≡ false) }
    ensures source { KeepsSource (K.left keys.old) (K.left keys.new) (K.fault_count keys.old)
        (K.fault_count keys.new) }
{
    while desk.is_seeking() {
        desk.seek(alloc, keys)?;
    }
    Ok(())
}

fn failed(error: DeskError) -> SessionEnd
    ensures { IsCut (Some result) }
{
    match error {
        DeskError::Screen => SessionEnd::ScreenFailed,
        DeskError::Memory => SessionEnd::NoMemory,
    }
}
