//! What is the same of all keepers over an open connection: they are made over it, and give it back.
ghost use Rattle.std.specs.Prelude.{◌≡◌, false};
ghost use Rattle.keeper_sqlite.specs.Keeping.{kept_over};
ghost use Rattle.keeper_sqlite.specs.Leaving.{IsGivenBack};

use crate::counts::Counts;
use crate::holding::Holding;
use sqlite::{Alter, Connection};
use std::marker::{Model, PhantomData};

/// A keeper over an open connection. `W` says from when on it tells its tables, and how often it loads them.
#[derive(Drop)]
pub struct ConnectionKeeper<S: Alter, W> {
    pub(crate) inner: Holding<S>,
    pub(crate) counts: Counts,
    when: PhantomData<W>,
}

impl<S: Alter, W> Model for ConnectionKeeper<S, W> {
    ghost use Rattle.keeper_sqlite.specs.Keeping.{Kept, kept_code};

    ghost Value = { Kept S };

    ghost coded = { kept_code S.code };

    ghost view = { λ k. record {
      connection = k.inner.connection;
      lengths = k.inner.lengths;
      calls = k.counts.calls;
      faults = k.counts.faults;
    } };
}

impl<S: Alter, W> ConnectionKeeper<S, W> {
    /// The keeper over this connection, which has loaded no tables yet. It takes the limit on the steps of a statement
    /// away, where one is set.
    pub fn over(connection: Connection<S>) -> ConnectionKeeper<S, W>
        requires { connection.in_transaction ≡ false }
        ensures { result ≡ kept_over connection }
    {
        ConnectionKeeper {
            inner: Holding::over(connection),
            counts: Counts::new(),
            when: PhantomData,
        }
    }

    /// Gives the connection back.
    pub fn into_connection(self) -> Connection<S>
        ensures given { IsGivenBack self.connection result }
    {
        let ConnectionKeeper {
            inner,
            counts: _,
            when: _,
        } = self;
        inner.into_connection()
    }
}
