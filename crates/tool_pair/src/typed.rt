// What values of these types keep, as definitions ask it of a beginning.
ghost use Rattle.std.specs.Prelude.{◌≡◌, ◌<◌, IsTrue, length};
ghost use Rattle.std.specs.List.{AllByRecursion, list_all};
ghost use Rattle.ftp_endpoint.specs.Written.{IsTypedHost};
ghost use Rattle.ftp_server_model.specs.Told.{is_path};

use ftp_endpoint::Host;
use ftp_facts::Text;
use ftp_operation::Account;
use ftp_path::{Path, TEXT_LIMIT};
use std::alloc::Allocator;

/// A host is four or sixteen octets.
pub(crate) fn is_typed(host: Host)
    ensures { IsTypedHost host }
{
    match host {
        Host::V4(octets) => are_typed(octets),
        Host::V6(octets) => are_typed(octets),
    }
}

/// So many octets are that many numbers of eight bits.
fn are_typed<const N: usize>(octets: [u8; N])
    ensures count { length octets.entry ≡ N }
    ensures octets { AllByRecursion (λ octet. octet < 256) octets.entry }
{
    are_octets(octets.as_slice());
}

fn are_octets(octets: &[u8])
    ensures { AllByRecursion (λ octet. octet < 256) octets.now }
{
    let _count = octets.len();
}

/// Each account's root is a path.
pub(crate) fn are_paths<A: Allocator + Copy>(list: &[Account<Text<A>, Path<A>>])
    ensures { IsTrue (list_all (λ account. is_path account.root) list.now) }
{
    for account in list {
        is_path(&account.root);
    }
}

/// A path has names within the limits; whether its canonical text is within its own.
#[tactic(auto, using(crate::proofs::Paths::kept_is_path))]
fn is_path<A: Allocator + Copy>(path: &Path<A>) -> bool
    ensures { IsTrue (is_path path.now) }
{
    path.key().len() <= TEXT_LIMIT
}
