// Calls that the rules refuse, and calls that they accept.
use crate::calls::Answer;
use crate::tray::{Change, Part, TABLES, Tray};
use anyhow::{anyhow, ensure};

// Makes a call that the rules refuse: it tells their number, and every table is as before. Gives back what the call was made on.
pub fn refused<C, D, F>(cluster: C, tray: &Tray, number: u8, call: &F) -> anyhow::Result<C>
where
    C: Drop,
    D: Drop,
    F: Fn(C, &mut Tray) -> Answer<C, D>,
    requires { F.IsAlwaysCallable call.now }
{
    let mut lent = tray.clone()?;
    let Err(refused) = call(cluster, &mut lent) else {
        return Err(anyhow!("accepted, and the rules refuse it by {number}"));
    };
    let told = refused.refusal.number();
    ensure!(told == number, "refused {told}, and the rules say {number}");
    ensure!(lent == *tray, "refused {number}, and a table is changed");
    Ok(refused.cluster)
}

// What a call leads to that the rules accept.
pub fn accepted<C: Drop, D>(answer: Answer<C, D>) -> anyhow::Result<D> {
    answer.map_err(|refused| {
        let told = refused.refusal.number();
        anyhow!("refused {told}, and the rules accept it")
    })
}

// Makes a call with each of the parts one too short and one too long; tells how often, beside what the call was made on.
fn refused_each<C, D, F>(
    mut cluster: C,
    tray: &Tray,
    parts: &[Part],
    number: u8,
    call: &F,
) -> anyhow::Result<(C, usize)>
where
    C: Drop,
    D: Drop,
    F: Fn(C, &mut Tray) -> Answer<C, D>,
    requires { F.IsAlwaysCallable call.now }
{
    let mut count: usize = 0;
    for part in parts {
        cluster = refused(cluster, &tray.with(*part, Change::Shorter)?, number, call)?;
        cluster = refused(cluster, &tray.with(*part, Change::Longer)?, number, call)?;
        count = count.saturating_add(2);
    }
    Ok((cluster, count))
}

// A tray that passes from call to call, and how often tables and input of another size were refused.
#[derive(Drop)]
pub struct Trial {
    pub tray: Tray,
    pub tables: usize,
    pub input: usize,
}

impl Trial {
    pub fn new(tray: Tray) -> Trial {
        Trial {
            tray,
            tables: 0,
            input: 0,
        }
    }

    // Makes a call with each table and each incoming part off by one, and then as it should be.
    pub fn call<C, D, F>(&mut self, cluster: C, incoming: &[Part], call: F) -> anyhow::Result<D>
    where
        C: Drop,
        D: Drop,
        F: Fn(C, &mut Tray) -> Answer<C, D> + Drop,
        requires { F.IsAlwaysCallable call }
    {
        let (cluster, tables) = refused_each(cluster, &self.tray, &TABLES, 7, &call)?;
        let (cluster, input) = refused_each(cluster, &self.tray, incoming, 8, &call)?;
        self.tables = self.tables.saturating_add(tables);
        self.input = self.input.saturating_add(input);
        accepted(call(cluster, &mut self.tray))
    }
}
