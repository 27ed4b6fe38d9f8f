// Which line is to blame for accounts that can be no server's.
ghost use Rattle.std.specs.Prelude.{◌≡◌, Some, length};
ghost use Rattle.ftp_operation.specs.Account.{accounts_refusal};
ghost use Rattle.tool_accounts.specs.accounts_file.Blame.{IsHeld};

use crate::accounts_file::fault::{AccountFault, TextFault};
use ftp_operation::{Accounts, RefusedAccounts};
use std::alloc::Allocator;

/// The fault of the first line whose account those above it do not allow: the last that has to go before the others are accounts. `numbers` are those
/// of the lines, one for each account.
pub(crate) fn blamed<A: Allocator + Copy>(
    refused: RefusedAccounts<A>,
    numbers: Vec<usize, A>,
) -> TextFault
    requires refused { accounts_refusal refused.list.items ≡ Some refused.fault }
    requires each { length numbers.items ≡ length refused.list.items }
    ensures { IsHeld refused.list.items numbers.items result }
{
    let mut numbers = numbers;
    let mut fault = refused.fault;
    let mut list = refused.list;
    while let Some(number) = numbers.pop() {
        let Some(_last) = list.pop() else {
            return TextFault::Memory;
        };
        match Accounts::new(list) {
            Ok(_) => {
                return TextFault::Line {
                    line: number,
                    fault: AccountFault::from(fault),
                };
            }
            Err(still) => {
                fault = still.fault;
                list = still.list;
            }
        }
    }
    TextFault::Memory
}
