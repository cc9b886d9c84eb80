//! The lists in association PDUs.

ghost use Rattle.std.specs.Prelude.{◌≡◌};

use crate::associate::{AnsweredContext, ProposedContext, Role};
use crate::uid::Uid;
use std::alloc::Allocator;
use std::marker::Model;

/// UIDs, in order. Contracts see them as a list.
#[derive(Drop)]
pub struct Uids<A: Allocator + Copy> {
    uids: Vec<Uid, A>,
}

impl<A: Allocator + Copy> Model for Uids<A> {
    ghost use Rattle.std.specs.Prelude.{List};
    ghost use Rattle.ups_pdu.specs.declared.uid.Uid.{Uid};

    ghost Value = { List Uid };

    ghost view = { λ l. l.uids.items };
}

impl<A: Allocator + Copy> Uids<A> {
    /// Wraps a vector, without allocating memory.
    pub fn from_vec(uids: Vec<Uid, A>) -> Uids<A>
        ensures { result ≡ uids.items }
    {
        Uids { uids }
    }

    /// Returns the vector, without allocating memory.
    pub fn into_vec(self) -> Vec<Uid, A>
        ensures { result.items ≡ self }
    {
        let Uids { uids } = self;
        uids
    }

    /// Returns the list as a slice.
    pub fn as_slice(&self) -> &[Uid]
        ensures { result.now ≡ self.now }
    {
        self.uids.as_slice()
    }
}

/// Proposed presentation contexts, in order. Contracts see them as a list.
#[derive(Drop)]
pub struct ProposedContexts<A: Allocator + Copy> {
    contexts: Vec<ProposedContext<A>, A>,
}

impl<A: Allocator + Copy> Model for ProposedContexts<A> {
    ghost use Rattle.std.specs.Prelude.{List};
    ghost use Rattle.ups_pdu.specs.declared.associate.ProposedContext.{ProposedContext};

    ghost Value = { List (ProposedContext A) };

    ghost view = { λ l. l.contexts.items };
}

impl<A: Allocator + Copy> ProposedContexts<A> {
    /// Wraps a vector, without allocating memory.
    pub fn from_vec(contexts: Vec<ProposedContext<A>, A>) -> ProposedContexts<A>
        ensures { result ≡ contexts.items }
    {
        ProposedContexts { contexts }
    }

    /// Returns the vector, without allocating memory.
    pub fn into_vec(self) -> Vec<ProposedContext<A>, A>
        ensures { result.items ≡ self }
    {
        let ProposedContexts { contexts } = self;
        contexts
    }

    /// Returns the list as a slice.
    pub fn as_slice(&self) -> &[ProposedContext<A>]
        ensures { result.now ≡ self.now }
    {
        self.contexts.as_slice()
    }
}

/// Answered presentation contexts, in order. Contracts see them as a list.
#[derive(Drop)]
pub struct AnsweredContexts<A: Allocator + Copy> {
    answers: Vec<AnsweredContext, A>,
}

impl<A: Allocator + Copy> Model for AnsweredContexts<A> {
    ghost use Rattle.std.specs.Prelude.{List};
    ghost use Rattle.ups_pdu.specs.declared.associate.AnsweredContext.{AnsweredContext};

    ghost Value = { List AnsweredContext };

    ghost view = { λ l. l.answers.items };
}

impl<A: Allocator + Copy> AnsweredContexts<A> {
    /// Wraps a vector, without allocating memory.
    pub fn from_vec(answers: Vec<AnsweredContext, A>) -> AnsweredContexts<A>
        ensures { result ≡ answers.items }
    {
        AnsweredContexts { answers }
    }

    /// Returns the vector, without allocating memory.
    pub fn into_vec(self) -> Vec<AnsweredContext, A>
        ensures { result.items ≡ self }
    {
        let AnsweredContexts { answers } = self;
        answers
    }

    /// Returns the list as a slice.
    pub fn as_slice(&self) -> &[AnsweredContext]
        ensures { result.now ≡ self.now }
    {
        self.answers.as_slice()
    }
}

/// Roles, in order. Contracts see them as a list.
#[derive(Drop)]
pub struct Roles<A: Allocator + Copy> {
    roles: Vec<Role, A>,
}

impl<A: Allocator + Copy> Model for Roles<A> {
    ghost use Rattle.std.specs.Prelude.{List};
    ghost use Rattle.ups_pdu.specs.declared.associate.Role.{Role};

    ghost Value = { List Role };

    ghost view = { λ l. l.roles.items };
}

impl<A: Allocator + Copy> Roles<A> {
    /// Wraps a vector, without allocating memory.
    pub fn from_vec(roles: Vec<Role, A>) -> Roles<A>
        ensures { result ≡ roles.items }
    {
        Roles { roles }
    }

    /// Returns the vector, without allocating memory.
    pub fn into_vec(self) -> Vec<Role, A>
        ensures { result.items ≡ self }
    {
        let Roles { roles } = self;
        roles
    }

    /// Returns the list as a slice.
    pub fn as_slice(&self) -> &[Role]
        ensures { result.now ≡ self.now }
    {
        self.roles.as_slice()
    }
}
