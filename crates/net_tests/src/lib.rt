//! Tests of a connection that cannot be sent to, and of the number of connections that wait. What a server does on
//! sockets, and what threads that share a manager leave, is seen from outside: by `check/sharing.py` and others, and by
//! the program `passes`.
#![tactic(auto)]

#[cfg(test)]
mod backlog;
#[cfg(test)]
mod sending;
