//! The calls of a case, and what is written of their answers.
//!
//! | line | call | written |
//! |---|---|---|
//! | `register FIRST LAST` | each delivery is registered | - |
//! | `register_as TAG NUMBER` | a delivery is registered with the tag of another number | - |
//! | `accept FIRST LAST`, `release FIRST LAST` | each is disposed of by the view | `done FOUND`, `done FOUND refilled` or `stale` for each |
//! | `accept_all FIRST LAST`, `reject_all FIRST LAST` | all are disposed of at once | the same, once |
//! | `forget NUMBER` | the delivery is taken out | `yes` or `no` |
//! | `record NUMBER STATE` | a state is kept, `accepted` or `released` | `yes` or `no` |
//! | `states` | - | the number and the state of each delivery, in the order of their numbers |
//! | `view` | the view is taken anew | - |
//! | `attach COUNT`, `drained AMOUNT`, `set_credit CREDIT`, `set_mode CREDIT_MODE`, `restart` | that call | - |
//! | `complete` | a delivery came | `yes` or `no` |
//! | `orders` | the orders are taken | `disposition FIRST LAST` with `settled` where it is, `flow COUNT CREDIT` |
//! | `numbers` | - | `len`, `processed`, `credit` and `delivery-count` |
//! | `ranges` | the ranges are counted | their number |
//! | `find ATTACHMENT NUMBER` | a range is looked for | its position or `none` |
//!
//! Where FIRST stands alone, it is LAST too.
use crate::error::CaseError;
use crate::find::find;
use crate::line::{credit_mode, info_of, infos_of, number, read_book, tag_of, two_numbers};
use crate::states::{push_states, state_of};
use amqp_delivery::{BookReply, BookState, DeliveryInfo, DisposerView, Order};
use amqp_termini::{Accepted, DeliveryState, Rejected, Released};
use std::alloc::{AllocError, Global};

/// A book, the view of its disposer, and what was written.
#[derive(Drop)]
struct Answering {
    alloc: Global,
    book: BookState,
    view: DisposerView,
    text: String,
}

fn yes_or_no(answer: bool) -> &'static str {
    if answer { "yes" } else { "no" }
}

impl Answering {
    fn write(&mut self, line: &str) -> Result<(), AllocError> {
        self.text.push_str(line)?;
        self.text.push('\n')
    }

    fn reply(&mut self, reply: &BookReply) -> Result<(), AllocError> {
        match reply {
            BookReply::Done { found, refilled } => {
                let found = *found;
                let line = if *refilled {
                    format!(in self.alloc; "done {found} refilled")?
                } else {
                    format!(in self.alloc; "done {found}")?
                };
                self.write(line.as_str())
            }
            BookReply::Taken(_) => self.write("taken"),
            BookReply::Stale => self.write("stale"),
        }
    }

    fn register(&mut self, words: &str) -> Result<(), CaseError> {
        let (first, last) = two_numbers(words)?;
        for number in first..=last {
            let info = info_of(self.alloc, number)?;
            let _done = self.book.register(info)?;
        }
        Ok(())
    }

    fn register_as(&mut self, words: &str) -> Result<(), CaseError> {
        let (tag, number) = two_numbers(words)?;
        let tag = tag_of(self.alloc, tag)?;
        let _done = self.book.register(DeliveryInfo::new(number, tag, None))?;
        Ok(())
    }

    fn dispose(&mut self, words: &str, accepts: bool) -> Result<(), CaseError> {
        let (first, last) = two_numbers(words)?;
        for number in first..=last {
            let info = info_of(self.alloc, number)?;
            self.book.reserve(1)?;
            let reply = if accepts {
                self.book
                    .dispose(&self.view, &info, DeliveryState::Accepted(Accepted {}))
            } else {
                self.book
                    .dispose(&self.view, &info, DeliveryState::Released(Released {}))
            };
            self.reply(&reply)?;
        }
        Ok(())
    }

    fn dispose_all(&mut self, words: &str, state: DeliveryState) -> Result<(), CaseError> {
        let (first, last) = two_numbers(words)?;
        let infos = infos_of(self.alloc, first, last)?;
        let reply = self.book.dispose_all(&self.view, infos.as_slice(), state)?;
        self.reply(&reply)?;
        Ok(())
    }

    fn order(&mut self, order: &Order) -> Result<(), AllocError> {
        let line = match order {
            Order::Disposition {
                first,
                last,
                settled,
                state: _,
            } => {
                let (first, last) = (*first, *last);
                if *settled {
                    format!(in self.alloc; "disposition {first} {last} settled")?
                } else {
                    format!(in self.alloc; "disposition {first} {last}")?
                }
            }
            Order::Flow {
                delivery_count,
                credit,
            } => {
                let (count, credit) = (*delivery_count, *credit);
                format!(in self.alloc; "flow {count} {credit}")?
            }
        };
        self.write(line.as_str())
    }

    fn orders(&mut self) -> Result<(), CaseError> {
        let orders = self.book.take_orders();
        for order in orders.as_slice() {
            self.order(order)?;
        }
        Ok(())
    }

    fn numbers(&mut self) -> Result<(), CaseError> {
        let len = self.book.len();
        let processed = self.book.processed();
        let credit = self.book.credit();
        let count = self.book.delivery_count();
        let line = format!(in self.alloc;
            "len {len} processed {processed} credit {credit} delivery-count {count}"
        )?;
        self.write(line.as_str())?;
        Ok(())
    }

    fn find(&mut self, words: &str) -> Result<(), CaseError> {
        let (attachment, number) = two_numbers(words)?;
        match find(&self.book, u64::from(attachment), number) {
            Some(place) => {
                let line = format!(in self.alloc; "{place}")?;
                self.write(line.as_str())?;
            }
            None => self.write("none")?,
        }
        Ok(())
    }

    fn record(&mut self, words: &str) -> Result<(), CaseError> {
        let Some((delivery, state)) = words.split_once(' ') else {
            return Err(CaseError::Malformed);
        };
        let tag = tag_of(self.alloc, number(delivery)?)?;
        let answer = yes_or_no(self.book.record(&tag, state_of(state)?));
        self.write(answer)?;
        Ok(())
    }

    /// A call without words.
    fn plain(&mut self, word: &str) -> Result<(), CaseError> {
        match word {
            "view" => self.view = self.book.view(0),
            "restart" => self.book.restart(),
            "complete" => {
                let answer = yes_or_no(self.book.complete());
                self.write(answer)?;
            }
            "orders" => self.orders()?,
            "states" => push_states(self.alloc, &mut self.text, &self.book)?,
            "numbers" => self.numbers()?,
            "ranges" => {
                let ranges = self.book.ranges();
                let line = format!(in self.alloc; "{ranges}")?;
                self.write(line.as_str())?;
            }
            _ => return Err(CaseError::Malformed),
        }
        Ok(())
    }

    fn call(&mut self, line: &str) -> Result<(), CaseError> {
        let Some((word, words)) = line.split_once(' ') else {
            return self.plain(line);
        };
        match word {
            "register" => self.register(words)?,
            "register_as" => self.register_as(words)?,
            "accept" => self.dispose(words, true)?,
            "release" => self.dispose(words, false)?,
            "accept_all" => self.dispose_all(words, DeliveryState::Accepted(Accepted {}))?,
            "reject_all" => self.dispose_all(
                words,
                DeliveryState::Rejected(Rejected { error: None }),
            )?,
            "forget" => {
                let tag = tag_of(self.alloc, number(words)?)?;
                let answer = yes_or_no(self.book.forget(&tag));
                self.write(answer)?;
            }
            "record" => self.record(words)?,
            "attach" => self.book.attach(number(words)?),
            "drained" => self.book.drained(number(words)?),
            "set_credit" => self.book.set_credit(number(words)?),
            "set_mode" => self.book.set_mode(credit_mode(words)?),
            "find" => self.find(words)?,
            _ => return Err(CaseError::Malformed),
        }
        Ok(())
    }
}

/// What is written of the calls of a case.
pub fn answers(alloc: Global, given: &str) -> Result<String, CaseError> {
    let Some((first, calls)) = given.split_once('\n') else {
        return Err(CaseError::Malformed);
    };
    let book = read_book(alloc, first)?;
    let view = book.view(0);
    let mut answering = Answering {
        alloc,
        book,
        view,
        text: String::new(alloc),
    };
    for line in calls.lines() {
        answering.call(line)?;
    }
    let Answering {
        alloc: _,
        book: _,
        view: _,
        text,
    } = answering;
    Ok(text)
}
