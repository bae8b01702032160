// Copies of tokens.
use crate::{Spot, Token};
use std::alloc::{AllocError, Global};
use zb_base::TryCopy;

impl TryCopy for Spot {
    fn copy(&self, alloc: Global) -> Result<Spot, AllocError> {
        match self {
            Spot::OnFlow(flow) => Ok(Spot::OnFlow(flow.copy(alloc)?)),
            Spot::BeforeNode(node) => Ok(Spot::BeforeNode(node.copy(alloc)?)),
        }
    }
}

impl TryCopy for Token {
    fn copy(&self, alloc: Global) -> Result<Token, AllocError> {
        Ok(Token {
            scope: self.scope,
            spot: self.spot.copy(alloc)?,
        })
    }
}
