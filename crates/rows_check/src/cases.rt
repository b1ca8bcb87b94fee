//! A case: what was named, items, anchors, pairs, moment and demand.

use crate::answers::{path_of, table_of};
use crate::inventories::{Judging, add_comparison};
use crate::reports::{add_report, add_table};
use crate::vouching::{VouchedPair, VouchedPairs};
use certcheck::{Answer, Bundle, Items, OutOfMemory, Policy, check};
use certpath_run::{Settings, find};
use jiff::civil::DateTime;
use rows_hex::{Added, found, octets_of};
use std::alloc::{AllocError, Global};

/// Octets by their name.
#[derive(Drop)]
struct Named {
    name: String,
    octets: Vec<u8>,
}

/// The first word of a line.
#[derive(Clone, Copy)]
enum Word {
    Octets,
    Case,
    At,
    Demand,
    Items,
    Anchors,
    Vouch,
    All,
    Asks(Question),
}

/// What a line asks.
#[derive(Clone, Copy)]
enum Question {
    Path,
    NoPath,
    Other,
    Run,
    Find,
}

const WORDS: [(&str, Word); 13] = [
    ("octets", Word::Octets),
    ("case", Word::Case),
    ("at", Word::At),
    ("demand", Word::Demand),
    ("items", Word::Items),
    ("anchors", Word::Anchors),
    ("vouch", Word::Vouch),
    ("all", Word::All),
    ("path", Word::Asks(Question::Path)),
    ("none", Word::Asks(Question::NoPath)),
    ("other", Word::Asks(Question::Other)),
    ("run", Word::Asks(Question::Run)),
    ("find", Word::Asks(Question::Find)),
];

/// What the lines of a case hold.
#[derive(Drop)]
pub(crate) struct Case {
    named: Vec<Named>,
    moment: DateTime,
    demand_lists: bool,
    items: Vec<u8>,
    anchors: Vec<u8>,
    vouched: VouchedPairs,
}

/// The octets of a name; none where nothing is so named.
fn octets_named<'a>(named: &'a [Named], name: &str) -> &'a [u8] {
    for it in named {
        if it.name.as_str() == name {
            return it.octets.as_slice();
        }
    }
    &[]
}

/// Appends the octets of each name.
fn add_named(octets: &mut Vec<u8>, named: &[Named], names: &[&str]) -> Added {
    for name in names {
        octets.extend_from_slice(octets_named(named, name))?;
    }
    Ok(())
}

/// The items of a stream.
fn framed(alloc: Global, octets: &[u8]) -> Result<Items, AllocError> {
    let mut bundle = Bundle::new(alloc, u32::MAX);
    if bundle.feed(octets).is_err() {
        return Err(AllocError);
    }
    match bundle.finish() {
        Ok(items) => Ok(items),
        Err(_) => Err(AllocError),
    }
}

fn moment_of(words: &[&str]) -> Option<DateTime> {
    let [year, month, day, hour, minute, second] = words else {
        return None;
    };
    DateTime::new(
        year.parse().ok()?,
        month.parse().ok()?,
        day.parse().ok()?,
        hour.parse().ok()?,
        minute.parse().ok()?,
        second.parse().ok()?,
        0,
    )
    .ok()
}

impl Case {
    /// A case that holds nothing.
    pub(crate) fn new(alloc: Global, moment: DateTime) -> Case {
        Case {
            named: Vec::new(alloc),
            moment,
            demand_lists: false,
            items: Vec::new(alloc),
            anchors: Vec::new(alloc),
            vouched: VouchedPairs {
                pairs: Vec::new(alloc),
            },
        }
    }

    /// Takes a line, and adds it, with what it asks for behind it.
    pub(crate) fn add_line(&mut self, text: &mut String, line: &str) -> Added {
        text.push_str(line)?;
        let alloc = *text.allocator();
        let words = words_of(alloc, line)?;
        let Some((first, rest)) = words.split_first() else {
            return Ok(());
        };
        match found(&WORDS, first) {
            Some(Word::Asks(question)) => self.add_answer(text, question, rest),
            Some(Word::All) => self.add_all(text),
            Some(word) => self.take(alloc, word, rest),
            None => Ok(()),
        }
    }

    fn take(&mut self, alloc: Global, word: Word, words: &[&str]) -> Added {
        match word {
            Word::Octets => self.name(alloc, words),
            Word::Items => add_named(&mut self.items, &self.named, words),
            Word::Anchors => add_named(&mut self.anchors, &self.named, words),
            Word::Vouch => self.vouch(alloc, words),
            Word::At => {
                self.set_moment(words);
                Ok(())
            }
            Word::Demand => {
                self.demand_lists = true;
                Ok(())
            }
            _ => {
                self.begin(alloc);
                Ok(())
            }
        }
    }

    fn begin(&mut self, alloc: Global) {
        self.demand_lists = false;
        self.items = Vec::new(alloc);
        self.anchors = Vec::new(alloc);
        self.vouched = VouchedPairs {
            pairs: Vec::new(alloc),
        };
    }

    fn name(&mut self, alloc: Global, words: &[&str]) -> Added {
        let [name, digits] = words else {
            return Ok(());
        };
        if let Some(octets) = octets_of(alloc, digits)? {
            let name = String::from_str(alloc, name)?;
            self.named.push(Named { name, octets })?;
        }
        Ok(())
    }

    fn set_moment(&mut self, words: &[&str]) {
        if let Some(moment) = moment_of(words) {
            self.moment = moment;
        }
    }

    fn vouch(&mut self, alloc: Global, names: &[&str]) -> Added {
        let Some((key, items)) = names.split_first() else {
            return Ok(());
        };
        for item in items {
            let key = Vec::from_slice(alloc, octets_named(&self.named, key))?;
            let item = Vec::from_slice(alloc, octets_named(&self.named, item))?;
            self.vouched.pairs.push(VouchedPair { key, item })?;
        }
        Ok(())
    }

    /// Adds what is asked of a target; nothing where the words ask for nothing.
    fn add_answer(&self, text: &mut String, question: Question, words: &[&str]) -> Added {
        let Some((target, rest)) = words.split_first() else {
            return Ok(());
        };
        let Ok(target) = target.parse::<usize>() else {
            return Ok(());
        };
        if self.moment.subsec_nanosecond() != 0 {
            return Ok(());
        }
        let policy = Policy::new(self.moment, self.demand_lists);
        match question {
            Question::Run => self.add_run(text, target, policy),
            Question::Find => self.add_found(text, target, &policy),
            _ => match answer_of(*text.allocator(), question, rest)? {
                Some(answer) => self.add_check(text, target, &policy, &answer),
                None => Ok(()),
            },
        }
    }

    /// Adds whether all items at once are answered as each alone.
    fn add_all(&self, text: &mut String) -> Added {
        if self.moment.subsec_nanosecond() != 0 {
            return Ok(());
        }
        let alloc = *text.allocator();
        let items = framed(alloc, &self.items)?;
        let anchors = framed(alloc, &self.anchors)?;
        let judging = Judging {
            items: &items,
            anchors: &anchors,
            vouched: &self.vouched,
            policy: &Policy::new(self.moment, self.demand_lists),
        };
        add_comparison(text, judging)
    }

    /// Adds what a run on a target writes and answers.
    fn add_run(&self, text: &mut String, target: usize, policy: Policy) -> Added {
        let settings = Settings {
            target,
            policy,
            limit: u32::MAX,
        };
        add_report(text, &self.items, &self.anchors, &self.vouched, &settings)
    }

    /// Adds the table of the answer that is found on a target.
    fn add_found(&self, text: &mut String, target: usize, policy: &Policy) -> Added {
        let alloc = *text.allocator();
        let items = framed(alloc, &self.items)?;
        let anchors = framed(alloc, &self.anchors)?;
        match find(alloc, &items, target, &anchors, &self.vouched, policy) {
            Ok(answer) => add_table(text, &answer),
            Err(OutOfMemory) => Err(AllocError),
        }
    }

    /// Adds what `check` says of the answer.
    fn add_check(
        &self,
        text: &mut String,
        target: usize,
        policy: &Policy,
        answer: &Answer,
    ) -> Added {
        let alloc = *text.allocator();
        let items = framed(alloc, &self.items)?;
        let anchors = framed(alloc, &self.anchors)?;
        match check(
            alloc,
            &items,
            target,
            &anchors,
            &self.vouched,
            policy,
            answer,
        ) {
            Ok(yes) => write!(text, " = {yes}"),
            Err(OutOfMemory) => Err(AllocError),
        }
    }
}

fn words_of<'a>(alloc: Global, line: &'a str) -> Result<Vec<&'a str>, AllocError> {
    let mut words = Vec::new(alloc);
    for word in line.split(' ') {
        words.push(word)?;
    }
    Ok(words)
}

fn answer_of(
    alloc: Global,
    question: Question,
    words: &[&str],
) -> Result<Option<Answer>, AllocError> {
    match question {
        Question::Path => path_of(alloc, words),
        Question::NoPath => match table_of(alloc, words)? {
            Some(table) => Ok(Some(Answer::NoPath { table })),
            None => Ok(None),
        },
        _ => Ok(Some(Answer::NoTarget)),
    }
}
