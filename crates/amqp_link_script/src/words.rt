//! The words of links.
ghost use Rattle.std.specs.Prelude.{◌≡◌};
ghost use Rattle.amqp_link_script.specs.Words.{regulating_word_of, word_of, parting_word_of};

use amqp_script::script::words::is_text;

/// A word of links.
#[derive(Clone, Copy, Debug, PartialEq, Eq)]
pub enum LinkWord {
    /// The client attaches a sender.
    Sender,
    /// The client attaches a receiver.
    Receiver,
    /// The listener accepts a link.
    AcceptLink,
    /// Sends a message.
    Send,
    /// Asks what has become of a message.
    Outcome,
    /// Asks for the next message.
    Recv,
    /// Gives deliveries a state in which they end.
    Dispose,
    /// Gives the sender credit.
    SetCredit,
    /// Asks how much credit the sender has.
    Credit,
    /// Sets when a receiver gives credit.
    CreditMode,
    /// Sets whether a receiver accepts each delivery as it gives it.
    Auto,
    /// Asks the sender to use up its credit.
    Drain,
    /// Tells the sender how the link stands.
    SendProperties,
    /// Makes a disposer.
    Disposer,
    /// Accepts a delivery by a disposer.
    DisposerAccept,
    /// Releases a delivery by a disposer.
    DisposerRelease,
    /// Waits for the peer's Detach.
    OnDetach,
    /// Detaches a link.
    Detach,
    /// Closes a link.
    CloseLink,
    /// Closes a link, and waits for no answer.
    Abandon,
}

/// The word that the bytes are, if they are one by which a receiver goes on otherwise, or one of its disposers.
#[tactic(auto, unfolding(crate::specs::Words::regulating_word_of))]
fn regulating_word(word: &[u8]) -> Option<LinkWord>
    ensures { result ≡ regulating_word_of word.now }
{
    if is_text(word, b"credit_mode") {
        return Some(LinkWord::CreditMode);
    }
    if is_text(word, b"auto") {
        return Some(LinkWord::Auto);
    }
    if is_text(word, b"drain") {
        return Some(LinkWord::Drain);
    }
    if is_text(word, b"send_properties") {
        return Some(LinkWord::SendProperties);
    }
    if is_text(word, b"disposer") {
        return Some(LinkWord::Disposer);
    }
    if is_text(word, b"disposer_accept") {
        return Some(LinkWord::DisposerAccept);
    }
    if is_text(word, b"disposer_release") {
        return Some(LinkWord::DisposerRelease);
    }
    parting_word(word)
}

/// The word of links that the bytes are, if they are one.
#[tactic(auto, unfolding(crate::specs::Words::word_of))]
pub fn link_word(word: &[u8]) -> Option<LinkWord>
    ensures { result ≡ word_of word.now }
{
    if is_text(word, b"sender") {
        return Some(LinkWord::Sender);
    }
    if is_text(word, b"receiver") {
        return Some(LinkWord::Receiver);
    }
    if is_text(word, b"accept_link") {
        return Some(LinkWord::AcceptLink);
    }
    if is_text(word, b"send") {
        return Some(LinkWord::Send);
    }
    if is_text(word, b"outcome") {
        return Some(LinkWord::Outcome);
    }
    if is_text(word, b"recv") {
        return Some(LinkWord::Recv);
    }
    if is_text(word, b"dispose") {
        return Some(LinkWord::Dispose);
    }
    if is_text(word, b"set_credit") {
        return Some(LinkWord::SetCredit);
    }
    if is_text(word, b"credit") {
        return Some(LinkWord::Credit);
    }
    regulating_word(word)
}

/// The word by which a link is left that the bytes are, if they are one.
#[tactic(auto, unfolding(crate::specs::Words::parting_word_of))]
fn parting_word(word: &[u8]) -> Option<LinkWord>
    ensures { result ≡ parting_word_of word.now }
{
    if is_text(word, b"on_detach") {
        return Some(LinkWord::OnDetach);
    }
    if is_text(word, b"detach") {
        return Some(LinkWord::Detach);
    }
    if is_text(word, b"close_link") {
        return Some(LinkWord::CloseLink);
    }
    if is_text(word, b"abandon") {
        return Some(LinkWord::Abandon);
    }
    None
}
