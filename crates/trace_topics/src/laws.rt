//! What is known of each trace of two ends with sessions and links.
ghost use Rattle.trace_topics.specs.Explained.{TracesAreExplained};

/// Two ends made these steps, and the connection of each carries its sessions. So each answer of the trace to a call on a
/// connection has its cause; each answer to a call for a session or a link stands for frames, which the sessions and
/// the links of the other end have put out; and messages, credit and windows are carried between the two ends from any two
/// moments at which nothing of them is on its way.
pub fn traces_are_explained()
    ensures { TracesAreExplained }
{}
