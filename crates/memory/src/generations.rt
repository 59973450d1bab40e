// The generation record at each step that takes a new identifier or changes a flag. The record is the card's, and the steps
// are not: so they are functions beside it.
ghost use Rattle.std.specs.Prelude.{◌≡◌};
ghost use Rattle.protocol.specs.Changes.{spent, advanced, founded, promoted, demoted};

use card::generation::Generation;
use compare::Node;

// No identifier is left.
pub fn is_spent(generation: &Generation) -> bool
    ensures { result ≡ spent generation.now }
{
    generation.serial >= 999_999_999
}

// The first generation of a card.
pub fn founded(mut generation: Generation, node: Node) -> Generation
    ensures { result ≡ founded node generation }
{
    if let Some(identifier) = generation.next_identifier(usize::from(node)) {
        generation.current = identifier;
    }
    Generation {
        consistent: true,
        ..generation
    }
}

// The next generation, from which on the bitmap counts what the node writes alone.
pub fn advanced(mut generation: Generation, node: Node) -> Generation
    ensures { result ≡ advanced node generation }
{
    if let Some(identifier) = generation.next_identifier(usize::from(node)) {
        generation.bitmap = generation.current;
        generation.current = identifier;
    }
    generation
}

pub fn promoted(generation: Generation, node: Node) -> Generation
    ensures { result ≡ promoted node generation }
{
    let next = if generation.bitmap == 0 {
        advanced(generation, node)
    } else {
        generation
    };
    Generation {
        primary: true,
        ..next
    }
}

pub fn demoted(generation: Generation) -> Generation
    ensures { result ≡ demoted generation }
{
    Generation {
        primary: false,
        ..generation
    }
}
