// Models behind a pointer.
ghost use Rattle.std.specs.Prelude.{◌≡◌, IfOk};

use std::alloc::{AllocError, Global};
use std::marker::Model;
use zb_process::Model as ProcessModel;

/// A process model behind a pointer, so that a move that has one is small, and is handed on in few steps. Contracts see
/// the model.
#[derive(Drop)]
pub struct BoxedModel {
    model: Box<ProcessModel>,
}

impl Model for BoxedModel {
    ghost use Rattle.zb_process.specs.declared.model.Model.{Model};
    ghost use Rattle.zb_process.specs.contracts.model.Model as process;

    ghost Value = { Model };

    ghost coded = { process.the_row.coded };

    ghost view = { λ b. b.model.value };
}

impl BoxedModel {
    /// This model.
    pub fn new(alloc: Global, model: ProcessModel) -> Result<BoxedModel, AllocError>
        ensures { IfOk result (λ boxed. boxed ≡ model) }
    {
        Ok(BoxedModel {
            model: Box::new(alloc, model)?,
        })
    }

    /// The model.
    pub fn into_model(self) -> ProcessModel
        ensures { result ≡ self }
    {
        let BoxedModel { model } = self;
        Box::into_inner(model)
    }
}
