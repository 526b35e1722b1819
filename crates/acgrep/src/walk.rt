//! Which files the operands of a recursive search name.

ghost use Rattle.std.specs.Prelude.{◌≡◌, [], ◌∷◌, ◌++◌, IfErr, IfOk, IfSome, List, OnOk, false, map};
ghost use Rattle.std.specs.List.Sorted.{IsPermutation};
ghost use Rattle.tool_parts.specs.Names.{name_bytes};
ghost use Rattle.acgrep.specs.Folders.{AreBelow, Begins, Enters, FindsFiles, IsKind, IsUnknown, PutsInside, between, folder_named, is_folder, is_followed, is_lost_left, is_searched, is_spot_left, is_standard, path_inside, missed_of, operand, reads_devices, spot_of, spots_of, tree_of};
ghost use Rattle.acgrep.specs.Listed.{listed_bytes};
ghost use Rattle.acgrep.specs.Rules.{RuleSaid, rules_said};

use crate::failure::{Obstacle, Stop};
use crate::folders::{Folders, Kind};
use crate::json::is_text;
use crate::open::{Identity, is_input};
use crate::rules::{Rule, is_left_out, without_slashes};
use std::alloc::{AllocError, Global};
use std::collections::VecDeque;
use std::io::ErrorKind;
use std::{io, str};
use tool_parts::reason::Reason;

/// The working folder.
const HERE: &[u8] = b".";

/// What may be another folder than one slash is.
const TWO_SLASHES: &[u8] = b"//";

/// What is done with links, folders and devices.
#[derive(Clone, Copy)]
pub struct Ways {
    /// Whether links below folders are followed.
    pub follow: bool,
    /// Whether operands that are folders are passed over, where folders are not entered.
    pub skips_folders: bool,
    /// Whether devices are read. Where nothing is said of that, those are that are operands, and where links are followed all.
    pub devices: Option<bool>,
}

impl Ways {
    ghost use Rattle.acgrep.specs.Folders.{passes};

    /// Whether operands of some kind are passed over, where folders are not entered.
    pub fn passes(&self) -> bool
        ensures passes { result ≡ passes self.now }
    {
        self.skips_folders || !self.devices.unwrap_or(true)
    }
}

/// What a walk finds.
#[derive(Drop)]
pub struct Found {
    /// The names of the files, in order.
    pub names: Vec<Vec<u8>>,
    /// What cannot be looked at, and the folders that cannot be read.
    pub unread: Vec<Unread>,
}

/// What cannot be looked at, or a folder that cannot be read.
#[derive(Drop)]
pub struct Unread {
    /// Its name.
    pub name: Vec<u8>,
    /// Why.
    pub why: Obstacle,
}

/// A name that is still to be looked at.
#[derive(Drop)]
struct Pending {
    /// The name.
    name: Vec<u8>,
    /// Whether it is an operand.
    given: bool,
    /// The folders in which it stands, where links are followed.
    above: Vec<Identity>,
}

impl Found {
    /// Nothing.
    pub fn new(alloc: Global) -> Found
        ensures names { result.names.items ≡ [] }
        ensures unread { result.unread.items ≡ [] }
    {
        Found {
            names: Vec::new(alloc),
            unread: Vec::new(alloc),
        }
    }

    /// A file more.
    pub fn add(&mut self, name: Vec<u8>) -> Result<(), AllocError>
        ensures names { OnOk result
            (listed_bytes self.new.names.items ≡ listed_bytes self.old.names.items ++ (name.items ∷ [])) }
        ensures unread { self.new.unread ≡ self.old.unread }
    {
        self.names.push(name)?;
        Ok(())
    }

    /// Something more that cannot be read.
    fn miss(&mut self, name: Vec<u8>, why: Obstacle) -> Result<(), AllocError>
        ensures names { self.new.names ≡ self.old.names }
        ensures unread { OnOk result
            (missed_of self.new.unread.items ≡ missed_of self.old.unread.items ++ (name.items ∷ [])) }
    {
        self.unread.push(Unread { name, why })?;
        Ok(())
    }
}

/// The files that these operands name: themselves, and those below folders, without those that rules leave out. Where there is no
/// operand, those below the working folder. `ways` says what is done with links and devices.
pub fn walk<F: Folders>(
    alloc: Global,
    files: &F,
    ways: Ways,
    rules: &[Rule<'_>],
    operands: &[&[u8]],
) -> Result<Found, Stop>
    ensures found { IfOk result (λ found. AreBelow (tree_of F.Folders files.now) (rules_said rules.now) ways (name_bytes operands.now)
        (listed_bytes found.names.items) (missed_of found.unread.items)) }
{
    let mut found = Found::new(alloc);
    let mut pending = VecDeque::new(alloc);
    begin(alloc, files, ways, operands, &mut pending, &mut found)?;
    for _ in 0..u64::MAX {
        let Some(spot) = pending.pop_front() else {
            return Ok(found);
        };
        if is_standard(&spot) {
            found.add(spot.name)?;
            continue;
        }
        let kind = match look_at(files, spot.name.as_slice(), is_followed(ways, &spot)) {
            Ok(kind) => kind,
            Err(error) => {
                if is_lost_left(rules, &spot) {
                    continue;
                }
                found.miss(spot.name, Obstacle::Closed(Reason::of(&error)))?;
                continue;
            }
        };
        take(
            alloc,
            files,
            ways,
            rules,
            kind,
            spot,
            &mut pending,
            &mut found,
        )?;
    }
    Err(Stop::Read(Reason::Fault))
}

/// Puts down where a walk begins.
fn begin<F: Folders>(
    alloc: Global,
    files: &F,
    ways: Ways,
    operands: &[&[u8]],
    pending: &mut VecDeque<Pending>,
    found: &mut Found,
) -> Result<(), AllocError>
    requires none { pending.old.items ≡ [] }
    requires nothing { found.old.names.items ≡ [] }
    requires nowhere { found.old.unread.items ≡ [] }
    // Whatever rules there are.
    ensures begun { OnOk result ((rules : List RuleSaid) → Begins (tree_of F.Folders files.now) rules ways
        (name_bytes operands.now) (spots_of pending.new.items) found.new) }
{
    if !operands.is_empty() {
        return put_given(alloc, operands, pending);
    }
    match list_named(alloc, files, HERE) {
        Ok(names) => {
            let above = around_here(alloc, files, ways)?;
            put_first(alloc, names, b"", above.as_slice(), pending)
        }
        Err(error) => found.miss(
            Vec::from_slice(alloc, HERE)?,
            Obstacle::Closed(Reason::of(&error)),
        ),
    }
}

/// What stands around the names in the working folder: that folder, where links are followed and it can be told from others.
fn around_here<F: Folders>(
    alloc: Global,
    files: &F,
    ways: Ways,
) -> Result<Vec<Identity>, AllocError> {
    let mut around = Vec::new(alloc);
    if !ways.follow {
        return Ok(around);
    }
    if let Ok(identity) = identity_of(files, HERE) {
        around.push(identity)?;
    }
    Ok(around)
}

/// Puts down the operands.
fn put_given(
    alloc: Global,
    operands: &[&[u8]],
    pending: &mut VecDeque<Pending>,
) -> Result<(), AllocError>
    ensures put { OnOk result (spots_of pending.new.items
        ≡ spots_of pending.old.items ++ map operand (name_bytes operands.now)) }
{
    for operand in operands {
        let name = Vec::from_slice(alloc, *operand)?;
        let above = Vec::new(alloc);
        pending.push_back(Pending {
            name,
            given: true,
            above,
        })?;
    }
    Ok(())
}

/// Whether rules leave out what cannot be looked at, as they would a file: not where it is an operand, nor where its name alone keeps it
/// from being looked at and they leave out no folder of that name.
fn is_lost_left(rules: &[Rule<'_>], spot: &Pending) -> bool
    ensures left { result ≡ is_lost_left (rules_said rules.now) (spot_of spot.now) }
{
    !spot.given
        && is_spot_left(rules, false, spot)
        && (is_text(spot.name.as_slice()) || is_spot_left(rules, true, spot))
}

/// Whether rules leave out a file, or a folder, of a name.
fn is_spot_left(rules: &[Rule<'_>], is_folder: bool, spot: &Pending) -> bool
    ensures left { result ≡ is_spot_left (rules_said rules.now) is_folder (spot_of spot.now) }
{
    is_left_out(rules, is_folder, spot.given, spot.name.as_slice())
}

/// Whether a name is that of standard input.
fn is_standard(spot: &Pending) -> bool
    ensures { result ≡ is_standard (spot_of spot.now) }
{
    spot.given && is_input(spot.name.as_slice())
}

/// Whether a link of this name is followed.
fn is_followed(ways: Ways, spot: &Pending) -> bool
    ensures { result ≡ is_followed ways (spot_of spot.now) }
{
    spot.given || ways.follow
}

/// Whether a device of this name is read. Where nothing is said of that, it is where a link would be followed.
fn reads_devices(ways: Ways, spot: &Pending) -> bool
    ensures { result ≡ reads_devices ways (spot_of spot.now) }
{
    match ways.devices {
        Some(read) => read,
        None => is_followed(ways, spot),
    }
}

/// Takes what a name stands for, unless it is left out.
fn take<F: Folders>(
    alloc: Global,
    files: &F,
    ways: Ways,
    rules: &[Rule<'_>],
    kind: Kind,
    spot: Pending,
    pending: &mut VecDeque<Pending>,
    found: &mut Found,
) -> Result<(), AllocError>
    requires other { is_standard (spot_of spot) ≡ false }
    requires kind { IsKind (tree_of F.Folders files.now) ways (spot_of spot) kind }
    ensures finds { OnOk result (FindsFiles (tree_of F.Folders files.now) (rules_said rules.now) ways
        (spot_of spot ∷ spots_of pending.old.items) (spots_of pending.new.items) found.old found.new) }
{
    if is_spot_left(rules, is_folder(kind), &spot) {
        return Ok(());
    }
    if is_folder(kind) {
        return enter(alloc, files, ways, spot, pending, found);
    }
    if is_searched(kind, reads_devices(ways, &spot)) {
        return found.add(spot.name);
    }
    Ok(())
}

/// Whether it is a folder.
pub fn is_folder(kind: Kind) -> bool
    ensures { result ≡ is_folder kind }
{
    match kind {
        Kind::Folder => true,
        Kind::File | Kind::Link | Kind::Device => false,
    }
}

/// Puts down what a folder holds, unless it stands in itself.
fn enter<F: Folders>(
    alloc: Global,
    files: &F,
    ways: Ways,
    spot: Pending,
    pending: &mut VecDeque<Pending>,
    found: &mut Found,
) -> Result<(), AllocError>
    ensures entered { OnOk result (Enters (tree_of F.Folders files.now) spot.name.items
        (spots_of pending.old.items) (spots_of pending.new.items) found.old found.new) }
{
    let mut above = spot.above;
    if ways.follow {
        match identity_of(files, spot.name.as_slice()) {
            Ok(identity) => {
                if stands_in(identity, above.as_slice()) {
                    return found.miss(spot.name, Obstacle::Loop);
                }
                above.push(identity)?;
            }
            Err(error) => {
                return found.miss(spot.name, Obstacle::Closed(Reason::of(&error)));
            }
        }
    }
    match list_named(alloc, files, spot.name.as_slice()) {
        Ok(names) => put_first(
            alloc,
            names,
            spot.name.as_slice(),
            above.as_slice(),
            pending,
        ),
        Err(error) => found.miss(spot.name, Obstacle::Closed(Reason::of(&error))),
    }
}

/// Whether a folder is one of these.
fn stands_in(identity: Identity, above: &[Identity]) -> bool {
    for folder in above {
        if *folder == identity {
            return true;
        }
    }
    false
}

/// What tells a folder from all others.
fn identity_of<F: Folders>(files: &F, name: &[u8]) -> io::Result<Identity> {
    match str::from_utf8(name) {
        Ok(text) => files.identity(text),
        Err(_) => Err(io::Error::from(ErrorKind::InvalidInput)),
    }
}

/// Whether something that is no folder is searched: a file, and a device where those are read.
fn is_searched(kind: Kind, devices: bool) -> bool
    ensures { result ≡ is_searched kind devices }
{
    match kind {
        Kind::File => true,
        Kind::Device => devices,
        Kind::Folder | Kind::Link => false,
    }
}

/// Puts the names of a folder before what is pending, in the order of their bytes.
fn put_first(
    alloc: Global,
    names: Vec<Vec<u8>>,
    folder: &[u8],
    above: &[Identity],
    pending: &mut VecDeque<Pending>,
) -> Result<(), AllocError>
    ensures put { OnOk result (PutsInside (listed_bytes names.items) folder.now
        (spots_of pending.old.items) (spots_of pending.new.items)) }
{
    let mut left = names;
    left.sort()?;
    while let Some(last) = left.pop() {
        let name = path_inside(alloc, folder, last.as_slice())?;
        let above = Vec::from_slice(alloc, above)?;
        pending.push_front(Pending {
            name,
            given: false,
            above,
        })?;
    }
    Ok(())
}

/// The name of what has this name in a folder.
fn path_inside(alloc: Global, folder: &[u8], name: &[u8]) -> Result<Vec<u8>, AllocError>
    ensures path_inside { IfOk result (λ path. path.items ≡ path_inside folder.now name.now) }
{
    let mut path = Vec::new(alloc);
    let folder = folder_named(folder);
    path.extend_from_slice(folder)?;
    path.extend_from_slice(between(folder, name))?;
    path.extend_from_slice(name)?;
    Ok(path)
}

/// The name of a folder as it stands before the names in it: without the slashes at its end, but for its first byte. Two slashes alone may
/// be another folder than one.
fn folder_named(folder: &[u8]) -> &[u8]
    ensures named { result.now ≡ folder_named folder.now }
{
    if folder == TWO_SLASHES {
        folder
    } else {
        without_slashes(folder)
    }
}

/// What stands between the name of a folder and a name in it. The working folder has no name here; `-` is a file there, and not
/// standard input.
fn between(folder: &[u8], name: &[u8]) -> &'static [u8]
    ensures { result.now ≡ between folder.now name.now }
{
    if folder.is_empty() {
        return if is_input(name) { b"./" } else { b"" };
    }
    if folder.ends_with(b"/") { b"" } else { b"/" }
}

/// What a name stands for. A link is followed where that is asked for.
pub fn look_at<F: Folders>(files: &F, name: &[u8], follow: bool) -> io::Result<Kind>
    ensures told { IfOk result (λ kind.
        IfSome (F.kinds files.now follow name.now) (λ known. kind ≡ known)) }
    ensures lost { IfErr result (λ error. IsUnknown (tree_of F.Folders files.now) follow name.now) }
{
    match str::from_utf8(name) {
        Ok(text) => files.look(text, follow),
        Err(_) => Err(io::Error::from(ErrorKind::InvalidInput)),
    }
}

/// The names in a folder.
fn list_named<F: Folders>(alloc: Global, files: &F, name: &[u8]) -> io::Result<Vec<Vec<u8>>>
    ensures told { IfOk result (λ names.
        IfSome (F.lists files.now name.now) (λ known. IsPermutation known (listed_bytes names.items))) }
{
    match str::from_utf8(name) {
        Ok(text) => files.list(alloc, text),
        Err(_) => Err(io::Error::from(ErrorKind::InvalidInput)),
    }
}
