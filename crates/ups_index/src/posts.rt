//! Posts in order, which say where each number is found.

ghost use Rattle.std.specs.Prelude.{◌≡◌, ◌≢◌, ◌≤◌, ◌<◌, ◌+◌, ◌⊎◌, ℕ, [], Contains, OnOk};
ghost use Rattle.ups_index.specs.Posts.{post, KeepsEach, KeepsOthers};

use std::alloc::{AllocError, Allocator};
use std::collections::{BTreeSet, btree_set};
use std::marker::Model;

/// A number, and the place of a slot where it is found.
#[derive(Clone, Copy, Debug, PartialEq, Eq, PartialOrd, Ord)]
pub(crate) struct Post {
    pub number: u64,
    pub place: u32,
}

/// Inserts posts into a tree.
///
/// Errors: if memory runs out. Each post of the tree is still there then.
fn settle<A: Allocator + Copy>(
    tree: &mut BTreeSet<Post, A>,
    posts: &[Post],
) -> Result<(), AllocError>
    ensures keeps { KeepsEach tree.old.keys tree.new.keys }
    ensures has { OnOk result (KeepsEach posts.now tree.new.keys) }
{
    for post in posts {
        tree.insert(*post)?;
    }
    Ok(())
}

/// Returns the posts of the numbers from `low` to `high`.
fn run<A: Allocator + Copy>(
    tree: &BTreeSet<Post, A>,
    low: u64,
    high: u64,
) -> btree_set::Range<'_, Post>
    requires { low ≤ high }
    ensures { (number place : ℕ) → Contains tree.now.keys (post number place) → low ≤ number → number ≤ high → Contains result (post number place) }
{
    let first = Post {
        number: low,
        place: 0,
    };
    match high.checked_add(1) {
        Some(number) => tree.range(first..Post { number, place: 0 }),
        None => tree.range(first..),
    }
}

/// Posts in order, most of them in a tree. The newest wait beside it until room is made for more, because the tree
/// takes memory. A contract sees the posts of both, and how many more may wait.
pub(crate) struct Posts<A: Allocator + Copy> {
    tree: BTreeSet<Post, A>,
    waiting: Vec<Post, A>,
}

impl<A: Allocator + Copy> Drop for Posts<A> {
    fn drop(self) {
        let Posts {
            tree: _,
            waiting: _,
        } = self;
    }
}

impl<A: Allocator + Copy> Model for Posts<A> {
    ghost use Rattle.std.specs.Prelude.{◌++◌, ◌-◌};
    ghost use Rattle.std.specs.Vec.{vec_len, vec_capacity};
    ghost use Rattle.ups_index.specs.Posts.{Table};

    ghost Value = { Table };

    ghost view = { λ t. record { posts = t.tree.keys ++ t.waiting.items; room = vec_capacity t.waiting - vec_len t.waiting } };
}

impl<A: Allocator + Copy> Posts<A> {
    /// Returns an empty set of posts.
    pub(crate) fn new(alloc: A) -> Posts<A>
        ensures { result.posts ≡ [] }
    {
        Posts {
            tree: BTreeSet::new(alloc),
            waiting: Vec::new(alloc),
        }
    }

    /// Makes room for `more` posts.
    ///
    /// Errors: if memory runs out. Each post is still there then.
    pub(crate) fn reserve(&mut self, more: usize) -> Result<(), AllocError>
        ensures keeps { KeepsEach self.old.posts self.new.posts }
        ensures room { OnOk result (more ≤ self.new.room) }
        ensures no_less { self.old.room ≤ self.new.room }
    {
        let Posts { tree, waiting } = self;
        settle(tree, waiting)?;
        waiting.clear();
        waiting.reserve(more)
    }

    /// Adds the post of a number and a place. It takes no memory.
    pub(crate) fn put(&mut self, number: u64, place: u32)
        requires { 0 < self.old.room }
        ensures has { Contains self.new.posts (post number place) }
        ensures keeps { KeepsEach self.old.posts self.new.posts }
        ensures room { self.old.room ≤ self.new.room + 1 }
    {
        self.waiting.push_reserved(Post { number, place });
    }

    /// Removes the post of a number and a place. It takes no memory.
    pub(crate) fn take(&mut self, number: u64, place: u32)
        ensures keeps { KeepsOthers place self.old.posts self.new.posts }
        ensures spares { (other : ℕ) → other ≢ number → Contains self.old.posts (post other place) → Contains self.new.posts (post other place) }
        ensures room { self.old.room ≤ self.new.room }
    {
        let Posts { tree, waiting } = self;
        tree.remove(&Post { number, place });
        waiting.retain(|post| post.place != place || post.number != number);
    }

    /// Removes the post of a number and a place, unless it waits beside the tree. It takes no memory.
    pub(crate) fn take_settled(&mut self, number: u64, place: u32)
        ensures keeps { KeepsOthers place self.old.posts self.new.posts }
        ensures room { self.old.room ≤ self.new.room }
    {
        self.tree.remove(&Post { number, place });
    }

    /// Removes all posts of a place that wait beside the tree. It takes no memory.
    pub(crate) fn take_waiting(&mut self, place: u32)
        ensures keeps { KeepsOthers place self.old.posts self.new.posts }
        ensures room { self.old.room ≤ self.new.room }
    {
        self.waiting.retain(|post| post.place != place);
    }

    /// Returns the posts of the numbers from `low` to `high` in the tree, and all posts that wait beside it.
    pub(crate) fn runs(&self, low: u64, high: u64) -> (btree_set::Range<'_, Post>, &[Post])
        requires { low ≤ high }
        ensures { (number place : ℕ) → Contains self.now.posts (post number place) → low ≤ number → number ≤ high → Contains result.0 (post number place) ⊎ Contains result.1.now (post number place) }
    {
        (run(&self.tree, low, high), &self.waiting)
    }
}
