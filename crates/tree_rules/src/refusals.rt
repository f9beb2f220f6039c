//! What refuses the calls that change a tree: the first of their checks that stands,
//! after the walk to their path.
ghost use Rattle.std.specs.Prelude.{◌≡◌, ◌∷◌, ◌+◌, ◌≤◌, ◌^◌, ◌&&◌, ◌||◌, is_some};
ghost use Rattle.std.specs.Prelude.{[], None, Ok, MatchResult, length, not, reverse};
ghost use Rattle.tree_trait.specs.Calls.{Stat, ListFolder, ReadAt, ReadLink, MakeFile, WriteAt, SetMode};
ghost use Rattle.tree_trait.specs.Calls.{Rename, RemoveFile, RemoveFolder, SyncFile, SyncFolder};
ghost use Rattle.tree_trait.specs.Refusals.{refusal_of, is_folder, lacks, first_of, is_link, missing};
ghost use Rattle.tree_trait.specs.Refusals.{exists, a_folder, no_folder, a_special, denied_access, thing};
ghost use Rattle.tree_trait.specs.Refusals.{folder_of, is_empty, is_mount, no_room, rename_refusal};
ghost use Rattle.tree_trait.specs.declared.calls.TreeError.TheVariants.{NoSpace, Special, Mounted, NotEmpty};
ghost use Rattle.tree_trait.specs.declared.calls.TreeError.TheVariants.{Denied, IsFolder, NotFolder};
ghost use Rattle.tree_rules.specs.Spot.{place_of};

use crate::lookups::{
    file_at, folder_at, has_entries, lacks_at, link_at, starts_mount, unnamed_at,
};
use crate::mounts::{no_room, same_mount};
use crate::walking::{Spot, folder_of, thing_of, walk};
use mc_text::{Name, Path};
use tree_trait::{FileSystem, TreeError};

/// The check of `stat`.
fn check_stat(spot: &Spot) -> Option<TreeError>
    ensures { result ≡ first_of (missing (place_of spot.now) ∷ []) }
{
    if spot.there.is_none() {
        return Some(TreeError::Missing);
    }
    None
}

/// What refuses `stat`.
pub fn refuse_stat(fs: &FileSystem, names: &[Name]) -> Option<TreeError>
    ensures { result ≡ refusal_of fs.now (Stat (reverse names.now)) }
{
    match walk(fs, names) {
        Err(e) => Some(e),
        Ok(spot) => check_stat(&spot),
    }
}

/// The checks of `list`.
fn check_list(fs: &FileSystem, spot: &Spot) -> Option<TreeError>
    ensures { result ≡ first_of (missing (place_of spot.now) ∷ no_folder fs.now (place_of spot.now)
        ∷ denied_access 0o400 (thing fs.now (place_of spot.now)) ∷ []) }
{
    if spot.there.is_none() {
        return Some(TreeError::Missing);
    }
    let i = thing_of(fs, spot);
    if !folder_at(fs, i) {
        return Some(TreeError::NotFolder);
    }
    if lacks_at(fs, 0o400, i) {
        return Some(TreeError::Denied);
    }
    None
}

/// What refuses `list`.
pub fn refuse_list(fs: &FileSystem, names: &[Name]) -> Option<TreeError>
    ensures { result ≡ refusal_of fs.now (ListFolder (reverse names.now)) }
{
    match walk(fs, names) {
        Err(e) => Some(e),
        Ok(spot) => check_list(fs, &spot),
    }
}

/// The checks of a making.
fn check_make(fs: &FileSystem, spot: &Spot) -> Option<TreeError>
    ensures { result ≡ first_of
        (exists (place_of spot.now) ∷ denied_access 0o200 (folder_of fs.now (place_of spot.now)) ∷ []) }
{
    if spot.there.is_some() {
        return Some(TreeError::Exists);
    }
    if lacks_at(fs, 0o200, folder_of(fs, spot)) {
        return Some(TreeError::Denied);
    }
    None
}

/// What refuses `make_file`, `make_folder` and `make_link`.
pub fn refuse_make(fs: &FileSystem, names: &[Name]) -> Option<TreeError>
    ensures { result ≡ refusal_of fs.now (MakeFile (reverse names.now) 0) }
{
    match walk(fs, names) {
        Err(e) => Some(e),
        Ok(spot) => check_make(fs, &spot),
    }
}

/// The checks of `write_at` but for the mount's room.
fn check_file(fs: &FileSystem, spot: &Spot, bit: u16) -> Option<TreeError>
    ensures { result ≡ first_of (missing (place_of spot.now) ∷ a_folder fs.now (place_of spot.now)
        ∷ a_special fs.now (place_of spot.now) ∷ denied_access bit (thing fs.now (place_of spot.now)) ∷ []) }
{
    if spot.there.is_none() {
        return Some(TreeError::Missing);
    }
    let i = thing_of(fs, spot);
    if folder_at(fs, i) {
        return Some(TreeError::IsFolder);
    }
    if !file_at(fs, i) {
        return Some(TreeError::Special);
    }
    if lacks_at(fs, bit, i) {
        return Some(TreeError::Denied);
    }
    None
}

/// The checks of `write_at`: those of a file, and then the mount's room.
fn check_write(
    fs: &FileSystem,
    names: &[Name],
    spot: &Spot,
    offset: u64,
    count: usize,
) -> Option<TreeError>
    requires { offset + count ≤ 2 ^ 63 }
    ensures { result ≡ first_of (missing (place_of spot.now) ∷ a_folder fs.now (place_of spot.now)
        ∷ a_special fs.now (place_of spot.now) ∷ denied_access 0o200 (thing fs.now (place_of spot.now))
        ∷ (no_room fs.now (reverse names.now) (place_of spot.now) offset count, NoSpace) ∷ []) }
{
    if spot.there.is_none() {
        return Some(TreeError::Missing);
    }
    let i = thing_of(fs, spot);
    if folder_at(fs, i) {
        return Some(TreeError::IsFolder);
    }
    if !file_at(fs, i) {
        return Some(TreeError::Special);
    }
    if lacks_at(fs, 0o200, i) {
        return Some(TreeError::Denied);
    }
    if no_room(fs, names, spot, offset, count) {
        return Some(TreeError::NoSpace);
    }
    None
}

/// What refuses `write_at`.
pub fn refuse_write(fs: &FileSystem, names: &[Name], offset: u64, bytes: &[u8]) -> Option<TreeError>
    requires { offset + length bytes.now ≤ 2 ^ 63 }
    ensures { result ≡ refusal_of fs.now (WriteAt (reverse names.now) offset bytes.now) }
{
    match walk(fs, names) {
        Err(e) => Some(e),
        Ok(spot) => check_write(fs, names, &spot, offset, bytes.len()),
    }
}

/// What refuses `read_at`.
pub fn refuse_read(fs: &FileSystem, names: &[Name], offset: u64, count: usize) -> Option<TreeError>
    ensures { result ≡ refusal_of fs.now (ReadAt (reverse names.now) offset count) }
{
    match walk(fs, names) {
        Err(e) => Some(e),
        Ok(spot) => check_file(fs, &spot, 0o400),
    }
}

/// The checks of `read_link`.
fn check_link(fs: &FileSystem, spot: &Spot) -> Option<TreeError>
    ensures { result ≡ first_of
        (missing (place_of spot.now) ∷ (not (is_link (thing fs.now (place_of spot.now))), Special) ∷ []) }
{
    if spot.there.is_none() {
        return Some(TreeError::Missing);
    }
    if !link_at(fs, thing_of(fs, spot)) {
        return Some(TreeError::Special);
    }
    None
}

/// What refuses `read_link`.
pub fn refuse_read_link(fs: &FileSystem, names: &[Name]) -> Option<TreeError>
    ensures { result ≡ refusal_of fs.now (ReadLink (reverse names.now)) }
{
    match walk(fs, names) {
        Err(e) => Some(e),
        Ok(spot) => check_link(fs, &spot),
    }
}

/// The checks of `set_mode`.
fn check_set_mode(fs: &FileSystem, spot: &Spot) -> Option<TreeError>
    ensures { result ≡ first_of (missing (place_of spot.now) ∷ a_special fs.now (place_of spot.now) ∷ []) }
{
    if spot.there.is_none() {
        return Some(TreeError::Missing);
    }
    let i = thing_of(fs, spot);
    if !file_at(fs, i) && !folder_at(fs, i) {
        return Some(TreeError::Special);
    }
    None
}

/// What refuses `set_mode`.
pub fn refuse_set_mode(fs: &FileSystem, names: &[Name], mode: u16) -> Option<TreeError>
    ensures { result ≡ refusal_of fs.now (SetMode (reverse names.now) mode) }
{
    let _ = mode;
    match walk(fs, names) {
        Err(e) => Some(e),
        Ok(spot) => check_set_mode(fs, &spot),
    }
}

/// The checks of `remove_file`.
fn check_remove_file(fs: &FileSystem, spot: &Spot) -> Option<TreeError>
    ensures { result ≡ first_of (missing (place_of spot.now) ∷ a_folder fs.now (place_of spot.now)
        ∷ denied_access 0o200 (folder_of fs.now (place_of spot.now)) ∷ []) }
{
    if spot.there.is_none() {
        return Some(TreeError::Missing);
    }
    if folder_at(fs, thing_of(fs, spot)) {
        return Some(TreeError::IsFolder);
    }
    if lacks_at(fs, 0o200, folder_of(fs, spot)) {
        return Some(TreeError::Denied);
    }
    None
}

/// What refuses `remove_file`.
pub fn refuse_remove_file(fs: &FileSystem, names: &[Name]) -> Option<TreeError>
    ensures { result ≡ refusal_of fs.now (RemoveFile (reverse names.now)) }
{
    match walk(fs, names) {
        Err(e) => Some(e),
        Ok(spot) => check_remove_file(fs, &spot),
    }
}

/// Whether nothing is in what stands at a spot.
fn is_empty(fs: &FileSystem, spot: &Spot) -> bool
    ensures { result ≡ is_empty fs.now (place_of spot.now) }
{
    let i = thing_of(fs, spot);
    !has_entries(fs, i) && unnamed_at(fs, i) == 0
}

/// Whether a mount begins at a spot.
fn is_mount(fs: &FileSystem, spot: &Spot) -> bool
    ensures { result ≡ is_mount fs.now (place_of spot.now) }
{
    starts_mount(fs, thing_of(fs, spot))
}

/// The checks of `remove_folder`.
fn check_remove_folder(fs: &FileSystem, spot: &Spot) -> Option<TreeError>
    ensures { result ≡ first_of (missing (place_of spot.now) ∷ no_folder fs.now (place_of spot.now)
        ∷ (is_mount fs.now (place_of spot.now), Mounted)
        ∷ (not (is_empty fs.now (place_of spot.now)), NotEmpty)
        ∷ denied_access 0o200 (folder_of fs.now (place_of spot.now)) ∷ []) }
{
    if spot.there.is_none() {
        return Some(TreeError::Missing);
    }
    if !folder_at(fs, thing_of(fs, spot)) {
        return Some(TreeError::NotFolder);
    }
    if is_mount(fs, spot) {
        return Some(TreeError::Mounted);
    }
    if !is_empty(fs, spot) {
        return Some(TreeError::NotEmpty);
    }
    if lacks_at(fs, 0o200, folder_of(fs, spot)) {
        return Some(TreeError::Denied);
    }
    None
}

/// What refuses `remove_folder`.
pub fn refuse_remove_folder(fs: &FileSystem, names: &[Name]) -> Option<TreeError>
    ensures { result ≡ refusal_of fs.now (RemoveFolder (reverse names.now)) }
{
    match walk(fs, names) {
        Err(e) => Some(e),
        Ok(spot) => check_remove_folder(fs, &spot),
    }
}

/// The checks of `sync_file`.
fn check_sync_file(fs: &FileSystem, spot: &Spot) -> Option<TreeError>
    ensures { result ≡ first_of (missing (place_of spot.now) ∷ a_folder fs.now (place_of spot.now)
        ∷ a_special fs.now (place_of spot.now) ∷ []) }
{
    if spot.there.is_none() {
        return Some(TreeError::Missing);
    }
    let i = thing_of(fs, spot);
    if folder_at(fs, i) {
        return Some(TreeError::IsFolder);
    }
    if !file_at(fs, i) {
        return Some(TreeError::Special);
    }
    None
}

/// What refuses `sync_file`.
pub fn refuse_sync_file(fs: &FileSystem, names: &[Name]) -> Option<TreeError>
    ensures { result ≡ refusal_of fs.now (SyncFile (reverse names.now)) }
{
    match walk(fs, names) {
        Err(e) => Some(e),
        Ok(spot) => check_sync_file(fs, &spot),
    }
}

/// The checks of `sync_folder`.
fn check_sync_folder(fs: &FileSystem, spot: &Spot) -> Option<TreeError>
    ensures { result ≡ first_of (missing (place_of spot.now) ∷ no_folder fs.now (place_of spot.now) ∷ []) }
{
    if spot.there.is_none() {
        return Some(TreeError::Missing);
    }
    if !folder_at(fs, thing_of(fs, spot)) {
        return Some(TreeError::NotFolder);
    }
    None
}

/// What refuses `sync_folder`.
pub fn refuse_sync_folder(fs: &FileSystem, names: &[Name]) -> Option<TreeError>
    ensures { result ≡ refusal_of fs.now (SyncFolder (reverse names.now)) }
{
    match walk(fs, names) {
        Err(e) => Some(e),
        Ok(spot) => check_sync_folder(fs, &spot),
    }
}

/// The checks of `rename` once nothing but the folders and what stands at the new name can refuse it.
fn check_target(fs: &FileSystem, a: &Spot, b: &Spot) -> Option<TreeError>
    ensures { result ≡ first_of
        ((
          lacks 0o200 (folder_of fs.now (place_of a.now))
              || lacks 0o200 (folder_of fs.now (place_of b.now)),
          Denied,
        )
        ∷ (
          is_folder (thing fs.now (place_of b.now))
              && not (is_folder (thing fs.now (place_of a.now))),
          IsFolder,
        )
        ∷ (
          is_some b.now.there && (is_folder (thing fs.now (place_of a.now))
              && not (is_folder (thing fs.now (place_of b.now)))),
          NotFolder,
        )
        ∷ (is_folder (thing fs.now (place_of b.now)) && not (is_empty fs.now (place_of b.now)), NotEmpty)
        ∷ []) }
{
    if lacks_at(fs, 0o200, folder_of(fs, a)) || lacks_at(fs, 0o200, folder_of(fs, b)) {
        return Some(TreeError::Denied);
    }
    let moves_folder = folder_at(fs, thing_of(fs, a));
    let over_folder = folder_at(fs, thing_of(fs, b));
    if over_folder && !moves_folder {
        return Some(TreeError::IsFolder);
    }
    if b.there.is_some() && moves_folder && !over_folder {
        return Some(TreeError::NotFolder);
    }
    if over_folder && !is_empty(fs, b) {
        return Some(TreeError::NotEmpty);
    }
    None
}

/// The checks of `rename` once both walks are through.
fn check_rename(fs: &FileSystem, from: &Path, to: &Path, a: &Spot, b: &Spot) -> Option<TreeError>
    ensures { result ≡ rename_refusal fs.now from.now to.now (place_of a.now) (place_of b.now) }
{
    if a.there.is_none() {
        return Some(TreeError::Missing);
    }
    if is_mount(fs, a) || is_mount(fs, b) {
        return Some(TreeError::Mounted);
    }
    if from.same(to) {
        return None;
    }
    if from.is_prefix_of(to) {
        return Some(TreeError::IntoItself);
    }
    if !same_mount(fs, from.names(), to.names()) {
        return Some(TreeError::CrossMount);
    }
    check_target(fs, a, b)
}

/// What refuses `rename`.
pub fn refuse_rename(fs: &FileSystem, from: &Path, to: &Path) -> Option<TreeError>
    ensures { result ≡ refusal_of fs.now (Rename from.now to.now) }
{
    match walk(fs, from.names()) {
        Err(e) => Some(e),
        Ok(a) => match walk(fs, to.names()) {
            Err(e) => Some(e),
            Ok(b) => check_rename(fs, from, to, &a, &b),
        },
    }
}
