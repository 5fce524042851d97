//! Tests of a listener and a client over a socket. They are a crate of their own, so that amqp_serve is not proved anew with them.
#![tactic(auto)]

#[cfg(test)]
mod sockets;
