//! The layers of the statements.
ghost use Rattle.std.specs.Prelude.{◌≡◌, ◌+◌, ◌<◌, ◌^◌, ◌∷◌, IfOk, OnOk, drop, length};
ghost use Rattle.lef_tech.specs.Record.{or_zero, layer_by, layer_of, with_layer, layers_of};
ghost use Rattle.lef_tech.specs.inside.Stack.{AddsLayer, IsStack};

use crate::density::density_of;
use crate::facts::{Facts, LayerKind, body_of, facts_of};
use crate::layer::{CutLayer, Density, LayerRef, RoutingLayer};
use crate::statement::Statement;
use outside::Name;
use std::alloc::{AllocError, Global};

/// A routing or a cut layer.
#[derive(Debug, Drop)]
pub(crate) enum AnyLayer {
    Wire(RoutingLayer),
    Hole(CutLayer),
}

/// All layers in their order, and those of each type.
#[derive(Drop)]
pub(crate) struct Stack {
    pub(crate) order: Vec<LayerRef>,
    pub(crate) wires: Vec<RoutingLayer>,
    pub(crate) cuts: Vec<CutLayer>,
}

/// What is not stated is 0.
fn or_zero(stated: Option<u64>) -> u64
    ensures { result ≡ or_zero stated }
{
    match stated {
        Some(value) => value,
        None => 0,
    }
}

/// A layer with these facts.
fn layer_by(
    alloc: Global,
    name: &Name,
    facts: Facts,
    density: Density,
) -> Result<Option<AnyLayer>, AllocError>
    ensures { IfOk result (λ layer. layer ≡ layer_by name.now facts.kind facts.direction facts density) }
{
    match (facts.kind, facts.direction) {
        (Some(LayerKind::OfWires), Some(direction)) => {
            Ok(Some(AnyLayer::Wire(RoutingLayer {
                name: Name::new(alloc, name.bytes())?,
                direction,
                spacing: or_zero(facts.spacing),
                sheet: facts.resistance,
                density,
            })))
        }
        (Some(LayerKind::OfCuts), _) => Ok(Some(AnyLayer::Hole(CutLayer {
            name: Name::new(alloc, name.bytes())?,
            per_cut: facts.resistance,
            density,
        }))),
        _ => Ok(None),
    }
}

/// The layer with this name and these statements.
fn layer_of(alloc: Global, name: &Name, body: &[Statement]) -> Result<Option<AnyLayer>, AllocError>
    ensures { IfOk result (λ layer. layer ≡ layer_of name.now body.now) }
{
    layer_by(alloc, name, facts_of(body), density_of(alloc, body)?)
}

/// A count of layers, as a layer's number.
fn number(count: usize) -> u32
    requires { count < 2 ^ 32 }
    ensures { result ≡ count }
{
    count as u32
}

impl Stack {
    /// One more layer, if it is one.
    fn add(&mut self, layer: Option<AnyLayer>) -> Result<(), AllocError>
        requires { length self.old.wires.items + length self.old.cuts.items < 2 ^ 32 }
        ensures { OnOk result (AddsLayer self.old layer self.new) }
    {
        match layer {
            None => {}
            Some(AnyLayer::Wire(layer)) => {
                self.order
                    .push(LayerRef::Routing(number(self.wires.len())))?;
                self.wires.push(layer)?;
            }
            Some(AnyLayer::Hole(layer)) => {
                self.order.push(LayerRef::Cut(number(self.cuts.len())))?;
                self.cuts.push(layer)?;
            }
        }
        Ok(())
    }
}

/// The layer that the statement begins, if it does, with the statements after it.
fn layer_at(
    alloc: Global,
    statement: &Statement,
    others: &[Statement],
) -> Result<Option<AnyLayer>, AllocError>
    ensures { IfOk result (λ layer. layers_of (statement.now ∷ others.now) ≡ with_layer layer (layers_of others.now)) }
{
    match statement {
        Statement::Layer(name) => layer_of(alloc, name, body_of(others)),
        _ => Ok(None),
    }
}

/// The statements after the one at this place.
fn after(statements: &[Statement], place: usize) -> &[Statement]
    requires { place < length statements.now }
    ensures { result.now ≡ drop (place + 1) statements.now }
{
    &statements[place + 1..]
}

/// The layers of the statements.
pub(crate) fn stack_of(alloc: Global, statements: &[Statement]) -> Result<Stack, AllocError>
    requires { length statements.now < 2 ^ 32 }
    ensures { IfOk result (λ stack. IsStack (layers_of statements.now) stack) }
{
    let mut stack = Stack {
        order: Vec::new(alloc),
        wires: Vec::new(alloc),
        cuts: Vec::new(alloc),
    };
    for (place, statement) in statements.iter().enumerate() {
        let layer = layer_at(alloc, statement, after(statements, place))?;
        stack.add(layer)?;
    }
    Ok(stack)
}
