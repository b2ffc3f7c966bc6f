//! The places of actors in the handshake of a stop.

/// A private state that has a place in the handshake.
///
/// The law of the handshake speaks of an actor by its place alone. So it holds of any actors whose steps are
/// those of the handshake, whatever else they do.
pub trait InHandshake {
    ghost use Rattle.gh_base.specs.declared.layout.Layout.{Layout};
    ghost use Rattle.gh_phase.specs.Handshake.{HandshakePlace};

    // What holds of it in a heap of this layout, whatever it was told.
    ghost sound: { Layout → Self → Type 0 };

    // Where it stands.
    ghost place: { Self → HandshakePlace };
}
