//! The grants in force as a graph: users, and an edge from grantor to grantee for each grant.
//!
//! [`Graph`] is an [`Authority`](grants_core::Authority), and meets that contract word for word:
//! contracts see its `content`, the owners, the grants in force, and how many were ever made. After
//! any creations, grants and revocations its edges are exactly the grants that the replay of all of
//! them would find valid (Griffiths and Wade 1976, Fagin 1978), though a revocation replays
//! nothing.
//!
//! ```text
//! let mut rights = Graph::new(alloc);
//! rights.create(t, o)?;
//! rights.grant(o, &[select], &[a], true, Moment(2))?;
//! rights.grant(a, &[select], &[b], false, Moment(3))?;
//! rights.revoke(o, &[select], &[a]);
//! rights.holds(b, &select)                                // false: a could not have granted it
//! ```
//!
//! A capture gives the grants in force as they were when it began, some at a time, while the graph
//! goes on to change. Contracts see in `rest` those that it has still to give: `begin` makes them
//! the grants in force, no change of the content touches them, and each `capture_step` gives the
//! first of them.
//!
//! ```text
//! rights.grant(o, &[select], &[a], true, Moment(5))?;
//! rights.begin();
//! rights.revoke(o, &[select], &[a]);
//! rights.capture_step(&mut taken, 10)?                  // 1: o's grant to a, which fell meanwhile
//! ```
//!
//! # Mechanism
//!
//! Each edge has the moment at which it was made. It stands as long as its grantor owns the table,
//! or received an edge of the same privilege with the option at an earlier moment. A revocation
//! takes the edges out that it names. Then their grantees are pruned: a user's first edge of the
//! privilege falls if it has no such support, and its grantee is pruned in turn, by recursion; then
//! the user's next edge is the first. As the support of a user's edges depends on their moments
//! alone, the first that has support ends it: the later ones have it too.
//!
//! Here o owns the table, and the numbers are moments. With o's grant to a revoked, the edge of
//! moment 4 falls, since c had nothing to grant before 5, and that of moment 6 is held by b's:
//!
//! ```text
//!          2       3       4                                        4
//!      ┌──────▶ a ────▶ c ────▶ d              o        a       c  ╌╌▶  d
//!      o                ▲ │                    │                ▲ │
//!      └──────▶ b ──────┘ └───▶ d              └─────▶ b ───────┘ └───▶ d
//!          2        5       6                     2         5       6
//! ```
//!
//! The option can be revoked alone. Then each edge that is named loses it where it stands, and its
//! grantee is pruned as above: what he made falls if no edge of an earlier moment gives him the
//! option. Whatever the user who revokes has made stays.
//!
//! That each edge stands by an earlier one, or by the owner, is in the type. It ends all cycles:
//! users who grant to one another in a circle hold nothing once the edge falls that came first.
//!
//! No edge has a name in it. Two sets have the names of users and the privileges that were ever
//! granted, each once as a [`Key`], and where one stands in its set is its index. The edges are
//! [`Links`](links_core::Links) between indices:
//!
//! ```text
//!   o --0--> a --1--> b        users: o 0, a 1, b 2, c 3        0 --0--> 1 --1--> 2
//!            c --2--> b        privileges: INSERT on t 0                 3 --2--> 2
//! ```
//!
//! A call looks up the index of each user and privilege that it is handed; where one has none, no
//! edge is his. From there on a revocation goes over links alone. It takes one user after the
//! other: the links to him go, or lose their option, and he is pruned, before the next has his
//! turn.
//!
//! # Cost
//!
//! With n the edges of one privilege (of the system at most 1,024):
//!
//! - `owns` looks the table's owner up by hash.
//! - `holds`, `may_grant`, `has_made`, `has_optioned` and `room` look the privilege and the user up
//!   by hash, and then his edges with the logarithm of n. Edges of other tables and grants that
//!   fell cost nothing.
//! - `grant` makes its room first, and then looks each edge's users and privilege up, and adds it:
//!   a move of n ends of 16 bytes at most.
//! - `revoke` looks up, for each privilege that is named, that and its owner, the grantor, and each
//!   of the users. An edge that falls costs no look-up by hash, but some searches with the
//!   logarithm of n. The ends before it in its row move, or those behind it, whichever are fewer; in
//!   a chain that is one at most. It needs no memory and never fails; it calls itself at most as
//!   deep as there are edges of one privilege. `revoke_option` does the same, but for the named
//!   edges, which stay: one walk over the edges to each user named.
//! - `in_force` goes over all edges, and makes each anew. `standings` goes over all, and takes 16 bytes
//!   of each.
//! - `begin` and `left` are constant, but for an older capture that is given up, and `capture_step`
//!   makes the grants that it gives. It takes memory for these, and for their links as long as it
//!   takes; `begin`, `abandon`, `revoke` and `revoke_option` take none.
//!
//! An edge takes 57 bytes and two ends. No index is given back: names and privileges that were once
//! granted keep theirs, whatever falls.
#![tactic(auto)]

mod edges;
mod graph;
mod indices;
mod linking;
mod prune;
mod revocation;

pub use grants_core::Key;
pub use graph::Graph;
