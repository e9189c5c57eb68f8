//! What is true of products. Each function stands for the law that its contract states; a call of it does
//! nothing.
ghost use Rattle.parity_kernel.specs.Field.{IsLinear, IsAdditive, HasInverses};

/// Of the laws of a field those that parity rests on: a product goes through exclusive or in either factor,
/// and a product by any byte but 0 is undone by one by that byte's inverse. That products commute and
/// associate isn't said.
pub fn bytes_are_a_field()
    ensures linear { IsLinear }
    ensures additive { IsAdditive }
    ensures inverses { HasInverses }
{}
