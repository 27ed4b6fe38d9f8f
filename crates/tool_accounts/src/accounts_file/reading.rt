// The accounts that a text says, line by line.
ghost use Rattle.std.specs.Prelude.{◌≡◌, ◌++◌, ◌∷◌, [], None, IfOk, IfErr, length};
ghost use Rattle.ftp_operation.specs.Account.{accounts_refusal};
ghost use Rattle.tool_accounts.specs.accounts_file.Blame.{IsBlamed, IsHeld, IsOff};
ghost use Rattle.tool_accounts.specs.accounts_file.Lines.{AddsLine, SaysAll, Stands, speakers, without_cr};

use crate::accounts_file::blame::blamed;
use crate::accounts_file::fault::TextFault;
use crate::accounts_file::line::{account_of, is_silent};
use ftp_facts::{Text, cut_at};
use ftp_operation::{Account, Accounts};
use ftp_path::Path;
use std::alloc::Allocator;

/// The most accounts (own choice).
const ACCOUNT_LIMIT: usize = 1_000;

/// A byte order mark.
const MARK: &[u8] = b"\xef\xbb\xbf";

/// The accounts that a text says, in the order of its lines: each line is `user:password:root`, where an empty password means that none is needed, or that with
/// a colon and letters of rights after it. Lines end with LF, or CR LF; one of blanks alone or that begins with `#` says nothing.
///
/// The first line that says no account is told; then the first that no account can follow, since its user stands above, or its root
/// is below another's or above it and the upper one of both may change something.
pub fn read_accounts<A: Allocator + Copy>(alloc: A, text: &[u8]) -> Result<Accounts<A>, TextFault>
    // Witness of said: `the_last_line_is_left_out.edit`, `the_cr_stays_in_its_line.edit`, `who_may_look_may_put.edit`,
    // `the_last_letter_alone_counts.edit`, `who_may_rename_may_rename_onto.edit`, beside the gate.
    ensures said { IfOk result (λ accounts. SaysAll text.now accounts) }
    // Witness of allowed: an equation of what is given.
    ensures allowed { IfOk result (λ accounts. accounts_refusal accounts ≡ None) }
    // Witness of fault: `a_line_counts_from_none.edit`, `a_wrong_root_is_a_wrong_user.edit`, `the_line_behind_is_blamed.edit`,
    // `a_broken_digest_is_a_password.edit`, beside the gate.
    ensures fault { IfErr result (λ fault. IsBlamed text.now fault) }
{
    match said_in(alloc, text) {
        Ok(said) => said.accounts(),
        Err(fault) => Err(fault),
    }
}

/// What the lines of a text say.
pub(crate) fn said_in<A: Allocator + Copy>(
    alloc: A,
    text: &[u8],
) -> Result<ParsedAccounts<A>, TextFault>
    ensures said { IfOk result (λ said. Stands (speakers text.now) [] (said.list.items, said.numbers.items)) }
    ensures fault { IfErr result (λ fault. IsBlamed text.now fault) }
{
    if text.starts_with(MARK) {
        return Err(TextFault::Mark);
    }
    let mut said = ParsedAccounts::nothing(alloc);
    let mut number: usize = 1;
    let mut rest = text;
    while let Some((line, more)) = cut_at(rest, b'\n') {
        if let Err(fault) = said.read_line(alloc, number, without_cr(line)) {
            return Err(fault);
        }
        number += 1;
        rest = more;
    }
    if let Err(fault) = said.read_line(alloc, number, without_cr(rest)) {
        return Err(fault);
    }
    Ok(said)
}

/// A line without the CR at its end.
pub(crate) fn without_cr(line: &[u8]) -> &[u8]
    ensures { result.now ≡ without_cr line.now }
{
    match line.split_last() {
        Some((last, front)) if *last == b'\r' => front,
        _ => line,
    }
}

/// The accounts so far, and the number of the line of each.
#[derive(Drop)]
pub(crate) struct ParsedAccounts<A: Allocator + Copy> {
    list: Vec<Account<Text<A>, Path<A>>, A>,
    numbers: Vec<usize, A>,
}

impl<A: Allocator + Copy> ParsedAccounts<A> {
    /// No line was read.
    fn nothing(alloc: A) -> ParsedAccounts<A>
        ensures list { result.list.items ≡ [] }
        ensures numbers { result.numbers.items ≡ [] }
    {
        ParsedAccounts {
            list: Vec::new(alloc),
            numbers: Vec::new(alloc),
        }
    }

    /// Reads one line, of that number.
    fn read_line(&mut self, alloc: A, number: usize, text: &[u8]) -> Result<(), TextFault>
        ensures adds { IfOk result (λ _. AddsLine (number, text.now) (self.old.list.items, self.old.numbers.items)
            (self.new.list.items, self.new.numbers.items)) }
        ensures fault { IfErr result (λ fault. IsOff number text.now self.old.list.items fault) }
    {
        if is_silent(text) {
            return Ok(());
        }
        if self.list.len() >= ACCOUNT_LIMIT {
            return Err(TextFault::TooMany);
        }
        match account_of(alloc, text) {
            Ok(account) => self.push(account, number),
            Err(fault) => Err(TextFault::Line {
                line: number,
                fault,
            }),
        }
    }

    /// Puts what a line says after the others.
    fn push(&mut self, account: Account<Text<A>, Path<A>>, number: usize) -> Result<(), TextFault>
        ensures list { IfOk result (λ _. self.new.list.items ≡ self.old.list.items ++ account ∷ []) }
        ensures numbers { IfOk result (λ _. self.new.numbers.items ≡ self.old.numbers.items ++ number ∷ []) }
        ensures fault { IfErr result (λ fault. fault ≡ TextFault.Memory) }
    {
        if self.numbers.push(number).is_ok() && self.list.push(account).is_ok() {
            return Ok(());
        }
        Err(TextFault::Memory)
    }

    /// The accounts, whether or not they can be a server's.
    pub(crate) fn into_list(self) -> Vec<Account<Text<A>, Path<A>>, A>
        ensures { result.items ≡ self.list.items }
    {
        let ParsedAccounts { list, numbers: _ } = self;
        list
    }

    /// The accounts, where they can be a server's.
    fn accounts(self) -> Result<Accounts<A>, TextFault>
        requires { length self.numbers.items ≡ length self.list.items }
        ensures same { IfOk result (λ accounts. accounts ≡ self.list.items) }
        ensures allowed { IfOk result (λ accounts. accounts_refusal accounts ≡ None) }
        ensures fault { IfErr result (λ fault. IsHeld self.list.items self.numbers.items fault) }
    {
        let ParsedAccounts { list, numbers } = self;
        match Accounts::new(list) {
            Ok(accounts) => Ok(accounts),
            Err(refused) => Err(blamed(refused, numbers)),
        }
    }
}
