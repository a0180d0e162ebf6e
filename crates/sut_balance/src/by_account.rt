//! Potentials of nodes and sets of nodes, by account.

ghost use Rattle.std.specs.Prelude.{◌≡◌, ◌∷◌, ◌++◌, [], length, vec_len, if◌then◌else◌, IfOk, OnOk};
ghost use Rattle.sut_circuit.specs.Circuit.{by_account, marked};

use flow_graph::NodeId;
use flow_residual::Room;
use no_memory::NoMemory;
use std::alloc::Global;
use sut_circuit::Circuit;
use sut_measures::Account;

/// The accounts of a circuit, each with the potential of its node.
pub(crate) fn potentials_of(alloc: Global, c: &Circuit) -> Result<Vec<(Account, i128)>, NoMemory>
    requires { c.now.accounts.items ≡ c.now.state.graph.nodes }
    ensures { IfOk result (λ v. v.items ≡ by_account c.now.accounts.items c.now.state.potentials) }
{
    // A state has as many potentials as nodes.
    c.state.graph();
    let mut pairs = Vec::new(alloc);
    for (n, account) in c.accounts.iter().enumerate() {
        let potential = c.state.potential(NodeId(n as u32));
        pairs.push((*account, potential))?;
    }
    Ok(pairs)
}

/// Adds an account where it is marked.
fn push_marked(
    accounts: &mut Vec<Account>,
    account: Account,
    is_marked: bool,
) -> Result<(), NoMemory>
    ensures { OnOk result (accounts.new.items ≡ (if is_marked then accounts.old.items ++ account ∷ [] else accounts.old.items)) }
{
    if is_marked {
        accounts.push(account)?;
    }
    Ok(())
}

/// The accounts of a circuit whose nodes are in the room's set.
pub(crate) fn accounts_in(alloc: Global, c: &Circuit, room: &Room) -> Result<Vec<Account>, NoMemory>
    requires { vec_len room.now.set ≡ length c.now.accounts.items }
    ensures { IfOk result (λ v. v.items ≡ marked c.now.accounts.items room.now.set.items) }
{
    let mut accounts = Vec::new(alloc);
    for (n, account) in c.accounts.iter().enumerate() {
        push_marked(&mut accounts, *account, room.set[n])?;
    }
    Ok(accounts)
}
