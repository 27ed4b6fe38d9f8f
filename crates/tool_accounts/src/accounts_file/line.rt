// One line of an accounts file.
ghost use Rattle.std.specs.Prelude.{◌≡◌, ◌≢◌, [], IfOk, IfErr, IfSome, IfNone, IsTrue, false};
ghost use Rattle.std.specs.List.{list_all};
ghost use Rattle.std.specs.Option.{option_map};
ghost use Rattle.ftp_path.specs.Path.{resolved};
ghost use Rattle.ftp_operation.specs.Rights.{no_rights};
ghost use Rattle.tool_accounts.specs.accounts_file.Line.{EndsIn, HasFewFields, AreFields, IsFaulty, Says, is_blank, is_comment, is_root_text, is_silent};
ghost use Rattle.tool_accounts.specs.accounts_file.Line.{needed, rights_of_letter, rights_said, rights_with_letters};

use crate::accounts_file::fault::AccountFault;
use ftp_facts::{Text, cut_at};
use ftp_operation::{Account, Rights};
use ftp_path::{Path, PathFault, is_password, is_user};
use ftp_secret::{Secret, SecretFault};
use std::alloc::{AllocError, Allocator};

/// Whether a line says no account: blanks alone, or a comment, which begins with `#`.
pub(crate) fn is_silent(line: &[u8]) -> bool
    ensures { result ≡ is_silent line.now }
{
    are_blank(line) || is_comment(line)
}

fn are_blank(octets: &[u8]) -> bool
    ensures { result ≡ list_all is_blank octets.now }
{
    octets.iter().all(|octet| is_blank(*octet))
}

fn is_blank(octet: u8) -> bool
    ensures { result ≡ is_blank octet }
{
    octet == b' ' || octet == b'\t'
}

fn is_comment(line: &[u8]) -> bool
    ensures { result ≡ is_comment line.now }
{
    line.starts_with(b"#")
}

/// The account that a line says: `user:password:root` or `user:password:root:rights`. An empty password: none is needed.
pub(crate) fn account_of<A: Allocator + Copy>(
    alloc: A,
    line: &[u8],
) -> Result<Account<Text<A>, Path<A>>, AccountFault>
    ensures says { IfOk result (λ account. Says line.now account) }
    ensures fault { IfErr result (λ fault. IsFaulty line.now fault) }
{
    let Some(fields) = fields_of(line) else {
        return Err(AccountFault::Fields);
    };
    if !is_user(fields.user) {
        return Err(AccountFault::User);
    }
    if !is_password(fields.pass) {
        return Err(AccountFault::Password);
    }
    let pass = match needed(fields.pass) {
        Ok(pass) => pass,
        Err(fault) => return Err(AccountFault::Secret(fault)),
    };
    let root = match root_of(alloc, fields.root) {
        Ok(root) => root,
        Err(fault) => return Err(fault),
    };
    let Some(rights) = rights_of(fields.rights) else {
        return Err(AccountFault::Rights);
    };
    match Text::copy_of(alloc, fields.user) {
        Ok(user) => Ok(Account {
            user,
            pass,
            root,
            rights,
        }),
        Err(AllocError) => Err(AccountFault::Memory),
    }
}

/// The fields of a line.
#[derive(Clone, Copy)]
struct Fields<'a> {
    user: &'a [u8],
    pass: &'a [u8],
    root: &'a [u8],
    rights: Option<&'a [u8]>,
}

/// The fields of a line, if it has two colons.
fn fields_of(line: &[u8]) -> Option<Fields<'_>>
    ensures cut { IfSome result (λ fields. AreFields line.now fields.user.now fields.pass.now fields.root.now (option_map (λ field. field.now) fields.rights)) }
    ensures few { IfNone result (HasFewFields line.now) }
{
    let Some((user, rest)) = cut_at(line, b':') else {
        return None;
    };
    let Some((pass, rest)) = cut_at(rest, b':') else {
        return None;
    };
    let (root, rights) = ends_of(rest);
    Some(Fields {
        user,
        pass,
        root,
        rights,
    })
}

/// The root and the rights that stand after the second colon; no rights where no third one does.
fn ends_of(rest: &[u8]) -> (&[u8], Option<&[u8]>)
    ensures { EndsIn rest.now result.0.now (option_map (λ field. field.now) result.1) }
{
    match cut_at(rest, b':') {
        Some((root, rights)) => (root, Some(rights)),
        None => (rest, None),
    }
}

/// The secret that an account needs, if one, by the field of its password.
fn needed(pass: &[u8]) -> Result<Option<Secret>, SecretFault>
    ensures { result ≡ needed pass.now }
{
    if pass.is_empty() {
        return Ok(None);
    }
    match Secret::read(pass) {
        Ok(secret) => Ok(Some(secret)),
        Err(fault) => Err(fault),
    }
}

/// The path from `/` that a text names.
fn root_of<A: Allocator + Copy>(alloc: A, root: &[u8]) -> Result<Path<A>, AccountFault>
    ensures root { IfOk result (λ path. IsTrue (is_root_text root.now)) }
    ensures path { IfOk result (λ path. path ≡ resolved [] root.now) }
    ensures none { IfErr result (λ fault. fault ≢ AccountFault.Memory → (fault ≡ AccountFault.Root) × (is_root_text root.now ≡ false)) }
{
    if !root.starts_with(b"/") {
        return Err(AccountFault::Root);
    }
    match Path::root(alloc).resolve(alloc, root) {
        Ok(path) => Ok(path),
        Err(PathFault::NotText | PathFault::TooBig) => Err(AccountFault::Root),
        Err(PathFault::Memory) => Err(AccountFault::Memory),
    }
}

/// What a field of rights says, or that there is none.
fn rights_of(field: Option<&[u8]>) -> Option<Rights>
    ensures { result ≡ rights_said (option_map (λ octets. octets.now) field.entry) }
{
    match field {
        None => Some(Rights::all()),
        Some([]) => None,
        Some(letters) => rights_of_letters(letters),
    }
}

/// The rights of letters, where each says some.
fn rights_of_letters(letters: &[u8]) -> Option<Rights>
    ensures { result ≡ rights_with_letters no_rights letters.now }
{
    let mut rights = Rights::none();
    for at in 0..letters.len() {
        let Some(more) = rights_of_letter(letters[at]) else {
            return None;
        };
        rights = rights.joined(more);
    }
    Some(rights)
}

/// The rights that a letter says.
fn rights_of_letter(letter: u8) -> Option<Rights>
    ensures { result ≡ rights_of_letter letter }
{
    let none = Rights::none();
    match letter {
        b'r' => Some(none),
        b'w' => Some(Rights::adding()),
        b'p' => Some(Rights { put: true, ..none }),
        b'a' => Some(Rights {
            replace: true,
            ..none
        }),
        b'd' => Some(Rights {
            delete: true,
            ..none
        }),
        b'm' => Some(Rights {
            make_dir: true,
            ..none
        }),
        b'x' => Some(Rights {
            remove_dir: true,
            ..none
        }),
        b'f' => Some(Rights {
            rename: true,
            ..none
        }),
        b'o' => Some(Rights { onto: true, ..none }),
        _ => None,
    }
}
