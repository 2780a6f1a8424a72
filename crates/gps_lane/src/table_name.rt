ghost use Rattle.atomic_table.specs.Seated.{TableId, table_id_coded};

use std::marker::{Model, PhantomData};

/// Which table it is. It exists in proofs alone: no value of it is made.
pub struct TableName {
    marker: PhantomData<()>,
    pub ghost name: { TableId } by { table_id_coded },
}

impl Model for TableName {
    ghost use base.Fml.{ftrue};

    ghost also_owns = { λ _. ftrue };
}
