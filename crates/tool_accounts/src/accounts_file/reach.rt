// How far the accounts of a text reach together.
ghost use Rattle.std.specs.Prelude.{◌≡◌, IfErr, IfOk, map};
ghost use Rattle.tool_accounts.specs.accounts_file.Blame.{IsBlamed};
ghost use Rattle.tool_accounts.specs.accounts_file.Reach.{Reaches, rights_of};

use crate::accounts_file::fault::TextFault;
use crate::accounts_file::reading::said_in;
use ftp_facts::Text;
use ftp_operation::{Account, Rights};
use ftp_path::Path;
use std::alloc::Allocator;

/// How far accounts reach together.
#[derive(Drop)]
pub struct Reach<A: Allocator + Copy> {
    /// Their roots, in the order of their lines; one that two of them share comes twice.
    pub roots: Vec<Path<A>, A>,
    /// What one of them or another may change.
    pub rights: Rights,
}

/// How far the accounts reach that a text says. The first line that says no account is told. Whether the accounts can be a server's is not asked here.
pub fn read_reach<A: Allocator + Copy>(alloc: A, text: &[u8]) -> Result<Reach<A>, TextFault>
    // Witness of said: `the_last_rights_count_for_all.edit`, beside the gate.
    ensures said { IfOk result (λ reach. Reaches text.now reach.roots.items reach.rights) }
    // Witness of fault: as of `read_accounts`.
    ensures fault { IfErr result (λ fault. IsBlamed text.now fault) }
{
    match said_in(alloc, text) {
        Ok(said) => reach_of(alloc, said.into_list()),
        Err(fault) => Err(fault),
    }
}

/// How far these accounts reach.
fn reach_of<A: Allocator + Copy>(
    alloc: A,
    list: Vec<Account<Text<A>, Path<A>>, A>,
) -> Result<Reach<A>, TextFault>
    ensures roots { IfOk result (λ reach. reach.roots.items ≡ map (λ account. account.root) list.items) }
    ensures rights { IfOk result (λ reach. reach.rights ≡ rights_of list.items) }
    ensures fault { IfErr result (λ fault. fault ≡ TextFault.Memory) }
{
    let rights = rights_of(list.as_slice());
    match list.into_iter().map(|account| account.root).collect(alloc) {
        Ok(roots) => Ok(Reach { roots, rights }),
        Err(_) => Err(TextFault::Memory),
    }
}

/// What one of these accounts or another may change.
fn rights_of<A: Allocator + Copy>(list: &[Account<Text<A>, Path<A>>]) -> Rights
    ensures { result ≡ rights_of list.now }
{
    let mut rights = Rights::none();
    for account in list {
        rights = rights.joined(account.rights);
    }
    rights
}
