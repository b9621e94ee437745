//! A long session of statements that are drawn at random, over three tables, beside plain lists of rows.
use crate::running::run;
use crate::status::Status;
use crate::tests::plain::{
    Keys, Pair, Table, Texts, delete, insert, join, raise, select, select_greatest, total,
    turn_signs,
};
use crate::tests::serve;
use rm_base::Items;
use rm_env::{QuietSink, QuietSource};
use std::alloc::{AllocError, Global};
use std::test::Fail;

/// Numbers that look random: the same ones from the same seed.
#[derive(Drop)]
struct Dice {
    state: u32,
}

impl Dice {
    /// A number below n, which is at least 1.
    fn below(&mut self, n: u32) -> u32 {
        self.state = self
            .state
            .wrapping_mul(1_664_525)
            .wrapping_add(1_013_904_223);
        (self.state >> 16) % n.max(1)
    }
}

/// What the next statement is, and what it is about.
#[derive(Clone, Copy)]
struct Draw {
    kind: u32,
    table: usize,
    row: Pair,
    next: Pair,
    keys: Keys,
    number: u32,
}

fn next_draw(dice: &mut Dice) -> Draw {
    let kind = dice.below(24);
    let table = dice.below(3) as usize;
    let key = i64::from(dice.below(300)).wrapping_sub(100);
    let number = dice.below(250);
    let value = i64::from(number).wrapping_sub(50);
    let width = i64::from(dice.below(20));
    Draw {
        kind,
        table,
        row: (key, value),
        next: (key.wrapping_add(i64::from(dice.below(3))), value),
        keys: Keys {
            low: key,
            high: key.wrapping_add(width),
        },
        number,
    }
}

/// The three tables, the ones to which a ROLLBACK leads back where a BEGIN opened a transaction, and the
/// texts so far.
#[derive(Drop)]
struct Session {
    tables: Vec<Table>,
    kept: Option<Vec<Table>>,
    texts: Texts,
}

impl Session {
    fn new(alloc: Global) -> Result<Session, AllocError> {
        let mut session = Session {
            tables: Vec::new(alloc),
            kept: None,
            texts: Texts {
                script: String::new(alloc),
                want: String::new(alloc),
            },
        };
        for name in ["a", "b", "c"] {
            let rows = Vec::new(alloc);
            session.tables.push(Table { name, rows })?;
            writeln!(
                session.texts.script,
                "CREATE TABLE {name} (k INT PRIMARY KEY, v INT, w TEXT)"
            )?;
            session.texts.want.push_str("ok 0\n")?;
        }
        Ok(session)
    }

    fn begin(&mut self, alloc: Global) -> Result<(), AllocError> {
        self.texts.script.push_str("BEGIN\n")?;
        if self.kept.is_some() {
            return self.texts.want.push_str("error in transaction\n");
        }
        let mut kept = Vec::new(alloc);
        for table in &self.tables {
            kept.push(table.copy(alloc)?)?;
        }
        self.kept = Some(kept);
        self.texts.want.push_str("ok 0\n")
    }

    fn commit(&mut self) -> Result<(), AllocError> {
        self.texts.script.push_str("COMMIT\n")?;
        match self.kept.take() {
            Some(_) => self.texts.want.push_str("ok 0\n"),
            None => self.texts.want.push_str("error no transaction\n"),
        }
    }

    fn roll_back(&mut self) -> Result<(), AllocError> {
        self.texts.script.push_str("ROLLBACK\n")?;
        match self.kept.take() {
            Some(tables) => {
                self.tables = tables;
                self.texts.want.push_str("ok 0\n")
            }
            None => self.texts.want.push_str("error no transaction\n"),
        }
    }

    /// A statement that changes one table.
    fn change(&mut self, draw: &Draw) -> Result<(), AllocError> {
        let Some(table) = self.tables.get_mut(draw.table) else {
            return Ok(());
        };
        let texts = &mut self.texts;
        match draw.kind {
            0..=8 => insert(table, [draw.row].as_slice(), texts),
            9..=11 => insert(table, [draw.row, draw.next].as_slice(), texts),
            12 | 13 => raise(table, draw.keys, draw.row.1, texts),
            14 => turn_signs(table, i64::from(draw.number), texts),
            _ => delete(table, draw.keys, texts),
        }
    }

    /// A statement that reads one table.
    fn read(&mut self, alloc: Global, draw: &Draw) -> Result<(), AllocError> {
        let Some(table) = self.tables.get(draw.table) else {
            return Ok(());
        };
        let texts = &mut self.texts;
        match draw.kind {
            17 => select(alloc, table, draw.keys, texts),
            18 => select_greatest(alloc, table, draw.number as usize, texts),
            _ => total(alloc, table, draw.keys, texts),
        }
    }

    /// A statement that reads two tables.
    fn read_two(&mut self, alloc: Global, draw: &Draw) -> Result<(), AllocError> {
        let (Some(left), Some(right)) = (
            self.tables.get(draw.table),
            self.tables.get((draw.table ^ 1) % 3),
        ) else {
            return Ok(());
        };
        join(alloc, left, right, draw.keys, &mut self.texts)
    }

    fn go_on(&mut self, alloc: Global, draw: &Draw) -> Result<(), AllocError> {
        match draw.kind {
            0..=16 => self.change(draw),
            17..=19 => self.read(alloc, draw),
            20 => self.read_two(alloc, draw),
            21 => self.begin(alloc),
            22 => self.commit(),
            _ => self.roll_back(),
        }
    }
}

#[test]
fn two_thousand_statements_as_over_plain_lists(rt: HostRuntime) -> Result<(), Fail> {
    let alloc = rt.alloc();
    let mut dice = Dice { state: 1 };
    let mut session = Session::new(alloc)?;
    for _ in 0..2_000 {
        let draw = next_draw(&mut dice);
        session.go_on(alloc, &draw)?;
    }
    let input = session.texts.script.as_bytes().to_vec(alloc)?;
    let mut source = QuietSource::new(Items::from_vec(input));
    let mut sink = QuietSink::new(alloc);
    let status = run(alloc, &serve(alloc)?, &mut source, &mut sink, &mut None);
    assert_eq!(rt; status, Status::Done);
    assert_eq!(rt; sink.taken(), session.texts.want.as_bytes());
    Ok(())
}
