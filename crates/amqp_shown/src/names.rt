//! The names of the standard's described lists and of their fields.
ghost use Rattle.std.specs.Prelude.{◌≡◌, map};
ghost use Rattle.amqp_shown.specs.Names.{kind_name, names_of, name_at};

use amqp_composites::kind::CompositeKind;

/// Part 2, section 2.7.1.
const OPEN: [&str; 10] = [
    "container-id",
    "hostname",
    "max-frame-size",
    "channel-max",
    "idle-time-out",
    "outgoing-locales",
    "incoming-locales",
    "offered-capabilities",
    "desired-capabilities",
    "properties",
];

/// Part 2, section 2.7.2.
const BEGIN: [&str; 8] = [
    "remote-channel",
    "next-outgoing-id",
    "incoming-window",
    "outgoing-window",
    "handle-max",
    "offered-capabilities",
    "desired-capabilities",
    "properties",
];

/// Part 2, section 2.7.3.
const ATTACH: [&str; 14] = [
    "name",
    "handle",
    "role",
    "snd-settle-mode",
    "rcv-settle-mode",
    "source",
    "target",
    "unsettled",
    "incomplete-unsettled",
    "initial-delivery-count",
    "max-message-size",
    "offered-capabilities",
    "desired-capabilities",
    "properties",
];

/// Part 2, section 2.7.4.
const FLOW: [&str; 11] = [
    "next-incoming-id",
    "incoming-window",
    "next-outgoing-id",
    "outgoing-window",
    "handle",
    "delivery-count",
    "link-credit",
    "available",
    "drain",
    "echo",
    "properties",
];

/// Part 2, section 2.7.5.
const TRANSFER: [&str; 11] = [
    "handle",
    "delivery-id",
    "delivery-tag",
    "message-format",
    "settled",
    "more",
    "rcv-settle-mode",
    "state",
    "resume",
    "aborted",
    "batchable",
];

/// Part 2, section 2.7.6.
const DISPOSITION: [&str; 6] = ["role", "first", "last", "settled", "state", "batchable"];

/// Part 2, section 2.7.7.
const DETACH: [&str; 3] = ["handle", "closed", "error"];

/// Part 2, section 2.7.8.
const END: [&str; 1] = ["error"];

/// Part 2, section 2.7.9.
const CLOSE: [&str; 1] = ["error"];

/// Part 2, section 2.8.14.
const ERROR: [&str; 3] = ["condition", "description", "info"];

/// Part 3, section 3.4.1.
const RECEIVED: [&str; 2] = ["section-number", "section-offset"];

/// Part 3, section 3.4.3.
const REJECTED: [&str; 1] = ["error"];

/// Part 3, section 3.4.5.
const MODIFIED: [&str; 3] = [
    "delivery-failed",
    "undeliverable-here",
    "message-annotations",
];

/// Part 3, section 3.5.3.
const SOURCE: [&str; 11] = [
    "address",
    "durable",
    "expiry-policy",
    "timeout",
    "dynamic",
    "dynamic-node-properties",
    "distribution-mode",
    "filter",
    "default-outcome",
    "outcomes",
    "capabilities",
];

/// Part 3, section 3.5.4.
const TARGET: [&str; 7] = [
    "address",
    "durable",
    "expiry-policy",
    "timeout",
    "dynamic",
    "dynamic-node-properties",
    "capabilities",
];

/// Part 4, section 4.5.1.
const COORDINATOR: [&str; 1] = ["capabilities"];

/// Part 4, section 4.5.5.
const DECLARED: [&str; 1] = ["txn-id"];

/// Part 4, section 4.5.8.
const TRANSACTIONAL_STATE: [&str; 2] = ["txn-id", "outcome"];

/// Part 5, section 5.3.3.1.
const SASL_MECHANISMS: [&str; 1] = ["sasl-server-mechanisms"];

/// Part 5, section 5.3.3.2.
const SASL_INIT: [&str; 3] = ["mechanism", "initial-response", "hostname"];

/// Part 5, section 5.3.3.3.
const SASL_CHALLENGE: [&str; 1] = ["challenge"];

/// Part 5, section 5.3.3.4.
const SASL_RESPONSE: [&str; 1] = ["response"];

/// Part 5, section 5.3.3.5.
const SASL_OUTCOME: [&str; 2] = ["code", "additional-data"];

/// Part 3, section 3.2.1.
const HEADER: [&str; 5] = [
    "durable",
    "priority",
    "ttl",
    "first-acquirer",
    "delivery-count",
];

/// Part 3, section 3.2.4.
const PROPERTIES: [&str; 13] = [
    "message-id",
    "user-id",
    "to",
    "subject",
    "reply-to",
    "correlation-id",
    "content-type",
    "content-encoding",
    "absolute-expiry-time",
    "creation-time",
    "group-id",
    "group-sequence",
    "reply-to-group-id",
];

/// The name of the list.
pub fn name(kind: CompositeKind) -> &'static str
    ensures { result.now ≡ kind_name kind }
{
    match kind {
        CompositeKind::Open => "open",
        CompositeKind::Begin => "begin",
        CompositeKind::Attach => "attach",
        CompositeKind::Flow => "flow",
        CompositeKind::Transfer => "transfer",
        CompositeKind::Disposition => "disposition",
        CompositeKind::Detach => "detach",
        CompositeKind::End => "end",
        CompositeKind::Close => "close",
        CompositeKind::Error => "error",
        CompositeKind::Received => "received",
        CompositeKind::Accepted => "accepted",
        CompositeKind::Rejected => "rejected",
        CompositeKind::Released => "released",
        CompositeKind::Modified => "modified",
        CompositeKind::Source => "source",
        CompositeKind::Target => "target",
        CompositeKind::Coordinator => "coordinator",
        CompositeKind::Declared => "declared",
        CompositeKind::TransactionalState => "transactional-state",
        CompositeKind::SaslMechanisms => "sasl-mechanisms",
        CompositeKind::SaslInit => "sasl-init",
        CompositeKind::SaslChallenge => "sasl-challenge",
        CompositeKind::SaslResponse => "sasl-response",
        CompositeKind::SaslOutcome => "sasl-outcome",
        CompositeKind::Header => "header",
        CompositeKind::Properties => "properties",
    }
}

/// The names of the fields of such a list, in their order.
pub fn field_names(kind: CompositeKind) -> &'static [&'static str]
    ensures { map (λ n. n.now) result.now ≡ names_of kind }
{
    match kind {
        CompositeKind::Open => &OPEN,
        CompositeKind::Begin => &BEGIN,
        CompositeKind::Attach => &ATTACH,
        CompositeKind::Flow => &FLOW,
        CompositeKind::Transfer => &TRANSFER,
        CompositeKind::Disposition => &DISPOSITION,
        CompositeKind::Detach => &DETACH,
        CompositeKind::End => &END,
        CompositeKind::Close => &CLOSE,
        CompositeKind::Error => &ERROR,
        CompositeKind::Received => &RECEIVED,
        CompositeKind::Accepted => &[],
        CompositeKind::Rejected => &REJECTED,
        CompositeKind::Released => &[],
        CompositeKind::Modified => &MODIFIED,
        CompositeKind::Source => &SOURCE,
        CompositeKind::Target => &TARGET,
        CompositeKind::Coordinator => &COORDINATOR,
        CompositeKind::Declared => &DECLARED,
        CompositeKind::TransactionalState => &TRANSACTIONAL_STATE,
        CompositeKind::SaslMechanisms => &SASL_MECHANISMS,
        CompositeKind::SaslInit => &SASL_INIT,
        CompositeKind::SaslChallenge => &SASL_CHALLENGE,
        CompositeKind::SaslResponse => &SASL_RESPONSE,
        CompositeKind::SaslOutcome => &SASL_OUTCOME,
        CompositeKind::Header => &HEADER,
        CompositeKind::Properties => &PROPERTIES,
    }
}

/// The name of the field of such a list at that place, from 0; `?` behind the last.
pub fn field_name(kind: CompositeKind, place: usize) -> &'static str
    ensures { result.now ≡ name_at (names_of kind) place }
{
    match field_names(kind).get(place) {
        Some(name) => name,
        None => "?",
    }
}
