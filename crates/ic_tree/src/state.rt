ghost use Rattle.std.specs.Prelude.{◌≡◌, ◌+◌, ◌≤◌, ◌^◌, List, Some, IfOk, OnOk, drop, length, map, option_map, take};
ghost use Rattle.std.specs.List.{AllByRecursion};
ghost use Rattle.ic_behaviour.specs.declared.call.Message.{Message};
ghost use Rattle.ic_behaviour.specs.declared.request.Request.{Request as Asked};
ghost use Rattle.ic_state.specs.IsWorld.{IsWorld};
ghost use Rattle.ic_state.specs.Seen.{code_of, entry_of, state_of};
ghost use Rattle.ic_leb.specs.Spelling.{unsigned_spelling};
ghost use Rattle.ic_tree.specs.HashTree.{forked, leaf_at, root_hash};
ghost use Rattle.ic_tree.specs.StateTree.{by_id, canister_part, canister_tree, id_of_request, kept, lent_tree, part_of, request_part, request_tree, requests_tree, state_tree_of, status_leaf, tree_over};
ghost use Rattle.ic_tree.specs.View.{view};

use crate::fields::Pairs;
use crate::hashes::root;
use crate::tree::{Tree, fork, forked, labeled, leaf_at};
use ic_base::NoMemory;
use ic_leb::write_u;
use ic_principal::{Bytes, Principal, Text};
use ic_state::{Canister, CanisterPlace, CodePlace, Parts, Request, Response, World};
use std::alloc::Global;
use std::collections::BTreeMap;
use std::collections::btree_map::IntoIter;

// How long a request may wait, in nanoseconds: five minutes.
const LIFETIME: u64 = 300_000_000_000;

/// The tree of a state (IC Interface Specification, "The system state tree"): the time, of each
/// canister its certified data and the hash of its code, and of each request how far it is. Of two
/// requests with one id it has the earlier.
#[tactic(auto, unfolding(crate::specs::StateTree::kept, crate::specs::StateTree::state_tree_of))]
pub fn state_tree(alloc: Global, world: &World) -> Result<Tree, NoMemory>
    ensures { IfOk result (λ tree. view tree ≡ state_tree_of world.now) }
{
    tree_of(alloc, world.parts(), Keep::Whole)
}

/// The tree of a state, by the parts of its world. It has no messages, so these may be elsewhere.
#[tactic(auto, unfolding(crate::specs::StateTree::kept, crate::specs::StateTree::state_tree_of))]
pub fn tree_of_parts(alloc: Global, parts: &Parts) -> Result<Tree, NoMemory>
    requires keeps { (messages : List Message) × IsWorld (record parts.now { messages = messages }) }
    ensures { IfOk result (λ tree. view tree ≡ state_tree_of (state_of parts.now)) }
{
    tree_of(alloc, parts, Keep::Whole)
}

/// The root hash of the tree of a state. The tree of a request is hashed and let go before that
/// of the next is made, so that the whole tree is never there.
pub fn state_root(alloc: Global, world: &World) -> Result<[u8; 32], NoMemory>
    ensures { IfOk result (λ hash. hash ≡ root_hash (state_tree_of world.now)) }
{
    let tree = tree_of(alloc, world.parts(), Keep::Root)?;
    Ok(root(&tree))
}

// How the trees of the requests are kept.
#[derive(Clone, Copy)]
enum Keep {
    Whole,
    /// As root hashes, in place of trees.
    Root,
}

impl Keep {
    #[tactic(auto, unfolding(crate::specs::StateTree::kept, crate::specs::View::view))]
    fn keep(self, tree: Tree) -> Tree
        ensures { view result ≡ kept self (view tree) }
    {
        match self {
            Keep::Whole => tree,
            Keep::Root => Tree::Pruned(root(&tree)),
        }
    }
}

#[tactic(auto, unfolding(crate::specs::HashTree::forked_in))]
fn tree_of(alloc: Global, parts: &Parts, keep: Keep) -> Result<Tree, NoMemory>
    requires keeps { (messages : List Message) × IsWorld (record parts.now { messages = messages }) }
    ensures { IfOk result (λ tree. view tree ≡ tree_over (state_of parts.now) (kept keep (requests_tree parts.now.requests))) }
{
    let canisters = canister_trees(alloc, &parts.canisters)?;
    let requests = requests_tree(alloc, &parts.requests.items, keep)?;
    let canisters = labeled(alloc, b"canister".as_slice(), canisters)?;
    let requests = labeled(alloc, b"request_status".as_slice(), requests)?;
    let time = number_leaf(alloc, b"time".as_slice(), parts.time)?;
    fork(alloc, fork(alloc, canisters, requests)?, time)
}

// ---- canisters

fn canister_trees(
    alloc: Global,
    canisters: &BTreeMap<Principal, CanisterPlace>,
) -> Result<Tree, NoMemory>
    ensures { IfOk result (λ tree. view tree ≡ forked (map canister_tree (map entry_of canisters.now.entries))) }
{
    let mut trees = Vec::new(alloc);
    for (id, canister) in canisters {
        trees.push(canister_tree(alloc, id, canister.get())?)?;
    }
    forked(alloc, trees)
}

fn canister_tree(alloc: Global, id: &Principal, canister: &Canister) -> Result<Tree, NoMemory>
    ensures { IfOk result (λ tree. view tree ≡ canister_tree (entry_of (id.now, canister.now))) }
{
    let part = canister_part(alloc, &canister.certified, &canister.code)?;
    labeled(alloc, id.bytes(), part)
}

#[tactic(auto, unfolding(crate::specs::HashTree::forked_in))]
fn canister_part(
    alloc: Global,
    certified: &Bytes,
    code: &Option<CodePlace>,
) -> Result<Tree, NoMemory>
    ensures { IfOk result (λ tree. view tree ≡ canister_part certified.now (option_map code_of code.now)) }
{
    let certified = leaf_at(alloc, b"certified_data".as_slice(), &certified.items)?;
    match code {
        Some(code) => {
            let hash = leaf_at(alloc, b"module_hash".as_slice(), code.get().hash.as_slice())?;
            fork(alloc, certified, hash)
        }
        None => Ok(certified),
    }
}

// ---- requests

#[tactic(auto, unfolding(crate::specs::HashTree::forked_in, crate::specs::View::view))]
fn requests_tree(alloc: Global, requests: &[Request], keep: Keep) -> Result<Tree, NoMemory>
    requires few { length requests.now ≤ 2 ^ 20 }
    requires early { AllByRecursion (λ (r : Asked). r.time ≤ 9223372036854775807) requests.now }
    ensures { IfOk result (λ tree. view tree ≡ kept keep (requests_tree requests.now)) }
{
    let order = in_order(alloc, requests)?;
    match order.len() {
        0 => Ok(keep.keep(Tree::Empty)),
        count => forked_requests(alloc, &mut order.into_iter(), count, keep),
    }
}

// The next `count` requests under forks. Each fork is kept as its requests are, so that there is no list of trees beside the order.
fn forked_requests<'a>(
    alloc: Global,
    order: &mut IntoIter<[u8; 32], &'a Request>,
    count: usize,
    keep: Keep,
) -> Result<Tree, NoMemory>
    requires some { 1 ≤ count }
    requires within { count ≤ length order.old }
    ensures rest { OnOk result (order.new ≡ drop count order.old) }
    ensures tree { IfOk result (λ tree. view tree ≡ kept keep (forked (map lent_tree (take count order.old)))) }
{
    if count > 1 {
        let left = forked_requests(alloc, order, count - count / 2, keep)?;
        let right = forked_requests(alloc, order, count / 2, keep)?;
        return Ok(keep.keep(fork(alloc, left, right)?));
    }
    match order.next() {
        Some(entry) => Ok(keep.keep(request_tree(alloc, &entry.0, entry.1)?)),
        None => Ok(Tree::Empty),
    }
}

fn request_tree(alloc: Global, id: &[u8; 32], request: &Request) -> Result<Tree, NoMemory>
    ensures { IfOk result (λ tree. view tree ≡ request_tree (id.now, request_part request.now.answer)) }
{
    let part = request_part(alloc, &request.answer)?;
    labeled(alloc, id.as_slice(), part)
}

// The requests by their ids. The last goes first, so that of two with one id the earlier is kept.
fn in_order<'a>(
    alloc: Global,
    requests: &'a [Request],
) -> Result<BTreeMap<[u8; 32], &'a Request>, NoMemory>
    requires few { length requests.now ≤ 2 ^ 20 }
    requires early { AllByRecursion (λ (r : Asked). r.time ≤ 9223372036854775807) requests.now }
    ensures { IfOk result (λ order. map part_of order.entries ≡ by_id 0 requests.now) }
{
    let mut order = BTreeMap::new(alloc);
    let mut left = requests.len();
    while left > 0 {
        left -= 1;
        let request = &requests[left];
        let id = id_of_request(alloc, left as u64, request)?;
        order.insert(id, request)?;
    }
    Ok(order)
}

// When a request is too old, in nanoseconds since 1970-01-01.
fn expiry(request: &Request) -> u64
    requires { request.now.time ≤ 9223372036854775807 }
    ensures { result ≡ request.now.time + 300000000000 }
{
    request.time + LIFETIME
}

fn id_of_request(alloc: Global, number: u64, request: &Request) -> Result<[u8; 32], NoMemory>
    requires { request.now.time ≤ 9223372036854775807 }
    ensures { IfOk result (λ id. id ≡ id_of_request number request.now) }
{
    let mut pairs = Pairs::new(alloc);
    pairs.put_bytes(alloc, "request_type", b"call".as_slice())?;
    pairs.put_bytes(alloc, "sender", request.sender.bytes())?;
    pairs.put_bytes(alloc, "canister_id", request.callee.bytes())?;
    pairs.put_bytes(alloc, "method_name", request.method.items.as_bytes())?;
    pairs.put_bytes(alloc, "arg", &request.arg.items)?;
    pairs.put_number(alloc, "ingress_expiry", expiry(request))?;
    pairs.put_bytes(alloc, "nonce", number.to_be_bytes().as_slice())?;
    Ok(pairs.hash())
}

#[tactic(auto, unfolding(crate::specs::HashTree::forked_in))]
fn request_part(alloc: Global, answer: &Option<Response>) -> Result<Tree, NoMemory>
    ensures { IfOk result (λ tree. view tree ≡ request_part answer.now) }
{
    match answer {
        None => status_leaf(alloc, b"processing".as_slice()),
        Some(Response::Reply(bytes)) => replied_part(alloc, bytes),
        Some(Response::Reject { code, message }) => rejected_part(alloc, *code, message),
    }
}

#[tactic(auto, unfolding(crate::specs::HashTree::forked_in))]
fn replied_part(alloc: Global, bytes: &Bytes) -> Result<Tree, NoMemory>
    ensures { IfOk result (λ tree. view tree ≡ request_part (Some (Response.Reply bytes.now))) }
{
    let reply = leaf_at(alloc, b"reply".as_slice(), &bytes.items)?;
    fork(alloc, reply, status_leaf(alloc, b"replied".as_slice())?)
}

#[tactic(auto, unfolding(crate::specs::HashTree::forked_in))]
fn rejected_part(alloc: Global, code: u32, message: &Text) -> Result<Tree, NoMemory>
    ensures { IfOk result (λ tree. view tree ≡ request_part (Some (Response.Reject code message.now))) }
{
    let code = number_leaf(alloc, b"reject_code".as_slice(), code as u64)?;
    let message = leaf_at(
        alloc,
        b"reject_message".as_slice(),
        message.items.as_bytes(),
    )?;
    let status = status_leaf(alloc, b"rejected".as_slice())?;
    fork(alloc, fork(alloc, code, message)?, status)
}

// ---- leaves

fn status_leaf(alloc: Global, status: &[u8]) -> Result<Tree, NoMemory>
    ensures { IfOk result (λ tree. view tree ≡ status_leaf status.now) }
{
    leaf_at(alloc, b"status".as_slice(), status)
}

// A number in LEB128.
#[tactic(auto, unfolding(crate::specs::View::view))]
fn number_leaf(alloc: Global, label: &[u8], number: u64) -> Result<Tree, NoMemory>
    ensures { IfOk result (λ tree. view tree ≡ leaf_at label.now (unsigned_spelling number)) }
{
    let mut items = Vec::new(alloc);
    write_u(number as u128, &mut items)?;
    labeled(alloc, label, Tree::Leaf(Bytes { items }))
}
