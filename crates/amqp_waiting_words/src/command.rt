//! What the words of a command line ask for.
ghost use Rattle.std.specs.Prelude.{◌≡◌, Some, None, MatchOption};
ghost use Rattle.amqp_waiting_words.specs.Command.{port_in, count_in, mechanism_in, option_in, options_in, send_in, receive_in, listen_in, connect_in, command_in, asked, parted, is_waiting};

use amqp_script::script::number::number;
use amqp_script::script::words::is_text;
use amqp_text::Text;

/// The highest port.
const HIGHEST_PORT: u64 = 65_535;

/// The most messages that `connect` sends and `receive` takes.
const MOST_MESSAGES: u64 = 10_000;

/// The longest time limit, in seconds.
const LONGEST_TIME: u64 = 1_000_000;

/// With which mechanism a client authenticates.
#[derive(Clone, Copy, Debug, PartialEq, Eq)]
pub enum Mechanism {
    /// No SASL layer.
    Absent,
    /// ANONYMOUS.
    Anonymous,
    /// PLAIN.
    Plain,
    /// SCRAM-SHA-1.
    ScramSha1,
    /// SCRAM-SHA-256.
    ScramSha256,
    /// SCRAM-SHA-512.
    ScramSha512,
}

/// What is said of a connection beside its URL.
#[derive(Clone, Copy, Debug, PartialEq, Eq)]
pub struct Options {
    /// The mechanism; where none is said, PLAIN with a user in the URL, and else ANONYMOUS.
    pub sasl: Option<Mechanism>,
    /// The time that is given, in seconds, where there is a limit.
    pub timeout: Option<u64>,
}

/// What the words behind the program's name ask for.
#[derive(Clone, Copy, Debug)]
pub enum Command<'a> {
    /// `listen PORT`.
    Listen {
        /// The port of the loopback.
        port: u16,
    },
    /// `connect PORT COUNT`.
    Connect {
        /// The port of the loopback.
        port: u16,
        /// How many messages are sent.
        count: u32,
    },
    /// `send URL ADDRESS MESSAGE..`.
    Send {
        /// The peer.
        url: &'a str,
        /// The node at the peer.
        address: &'a str,
        /// The messages, one or more.
        messages: &'a [Text],
        /// The options.
        options: Options,
    },
    /// `receive URL ADDRESS COUNT`.
    Receive {
        /// The peer.
        url: &'a str,
        /// The node at the peer.
        address: &'a str,
        /// How many messages are received.
        count: u32,
        /// The options.
        options: Options,
    },
}

/// What a word and the word behind it say of the options.
enum OptionRead {
    /// These are the options now.
    Read(Options),
    /// The value is none of the option.
    Bad,
    /// The word is no option.
    Absent,
}

/// The options at the front of some words, and the words behind them.
struct Parted<'a> {
    options: Options,
    rest: &'a [Text],
}

fn port(word: &[u8]) -> Option<u16>
    ensures { result ≡ port_in word.now }
{
    let port = number(HIGHEST_PORT, word)?;
    Some(port as u16)
}

fn count(word: &[u8]) -> Option<u32>
    ensures { result ≡ count_in word.now }
{
    let count = number(MOST_MESSAGES, word)?;
    Some(count as u32)
}

fn read_mechanism(word: &[u8]) -> Option<Mechanism>
    ensures { result ≡ mechanism_in word.now }
{
    if is_text(word, b"none") {
        return Some(Mechanism::Absent);
    }
    if is_text(word, b"anonymous") {
        return Some(Mechanism::Anonymous);
    }
    if is_text(word, b"plain") {
        return Some(Mechanism::Plain);
    }
    if is_text(word, b"scram-sha-1") {
        return Some(Mechanism::ScramSha1);
    }
    if is_text(word, b"scram-sha-256") {
        return Some(Mechanism::ScramSha256);
    }
    if is_text(word, b"scram-sha-512") {
        return Some(Mechanism::ScramSha512);
    }
    None
}

fn read_option(options: Options, word: &[u8], value: &[u8]) -> OptionRead
    ensures { result ≡ option_in options word.now value.now }
{
    if is_text(word, b"--sasl") {
        return match read_mechanism(value) {
            Some(mechanism) => OptionRead::Read(Options {
                sasl: Some(mechanism),
                timeout: options.timeout,
            }),
            None => OptionRead::Bad,
        };
    }
    if is_text(word, b"--timeout") {
        return match number(LONGEST_TIME, value) {
            Some(seconds) => OptionRead::Read(Options {
                sasl: options.sasl,
                timeout: Some(seconds),
            }),
            None => OptionRead::Bad,
        };
    }
    OptionRead::Absent
}

/// The options at the front of the words, and the words behind them. The last value of an option counts.
fn read_options(options: Options, words: &[Text]) -> Option<Parted<'_>>
    ensures { MatchOption result (options_in options words.now ≡ None) (λ p. options_in options words.now ≡ Some (parted p)) }
{
    let [word, value, rest @ ..] = words else {
        return Some(Parted {
            options,
            rest: words,
        });
    };
    match read_option(options, word.as_bytes(), value.as_bytes()) {
        OptionRead::Read(read) => read_options(read, rest),
        OptionRead::Bad => None,
        OptionRead::Absent => Some(Parted {
            options,
            rest: words,
        }),
    }
}

fn no_options() -> Options
    ensures { result ≡ record { sasl = None; timeout = None } }
{
    Options {
        sasl: None,
        timeout: None,
    }
}

fn read_send(words: &[Text]) -> Option<Command<'_>>
    ensures { MatchOption result (send_in words.now ≡ None) (λ c. send_in words.now ≡ Some (asked c)) }
{
    let Parted { options, rest } = read_options(no_options(), words)?;
    let [url, address, messages @ ..] = rest else {
        return None;
    };
    if messages.is_empty() {
        return None;
    }
    Some(Command::Send {
        url: url.as_str(),
        address: address.as_str(),
        messages,
        options,
    })
}

fn read_receive(words: &[Text]) -> Option<Command<'_>>
    ensures { MatchOption result (receive_in words.now ≡ None) (λ c. receive_in words.now ≡ Some (asked c)) }
{
    let Parted { options, rest } = read_options(no_options(), words)?;
    let [url, address, number] = rest else {
        return None;
    };
    let count = count(number.as_bytes())?;
    Some(Command::Receive {
        url: url.as_str(),
        address: address.as_str(),
        count,
        options,
    })
}

fn read_listen(words: &[Text]) -> Option<Command<'_>>
    ensures { MatchOption result (listen_in words.now ≡ None) (λ c. listen_in words.now ≡ Some (asked c)) }
{
    let [at] = words else {
        return None;
    };
    let port = port(at.as_bytes())?;
    Some(Command::Listen { port })
}

fn read_connect(words: &[Text]) -> Option<Command<'_>>
    ensures { MatchOption result (connect_in words.now ≡ None) (λ c. connect_in words.now ≡ Some (asked c)) }
{
    let [at, number] = words else {
        return None;
    };
    let port = port(at.as_bytes())?;
    let count = count(number.as_bytes())?;
    Some(Command::Connect { port, count })
}

/// What these words ask for, if they are a command of this crate.
pub fn read_command(words: &[Text]) -> Option<Command<'_>>
    ensures { MatchOption result (command_in words.now ≡ None) (λ c. command_in words.now ≡ Some (asked c)) }
{
    let [word, rest @ ..] = words else {
        return None;
    };
    let word = word.as_bytes();
    if is_text(word, b"listen") {
        return read_listen(rest);
    }
    if is_text(word, b"connect") {
        return read_connect(rest);
    }
    if is_text(word, b"send") {
        return read_send(rest);
    }
    if is_text(word, b"receive") {
        return read_receive(rest);
    }
    None
}

/// Whether the first word is that of a command of this crate.
pub fn is_waiting_word(words: &[Text]) -> bool
    ensures { result ≡ is_waiting words.now }
{
    let [word, ..] = words else {
        return false;
    };
    let word = word.as_bytes();
    is_text(word, b"listen")
        || is_text(word, b"connect")
        || is_text(word, b"send")
        || is_text(word, b"receive")
}
