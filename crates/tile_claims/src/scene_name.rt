//! The name of a scene.
ghost use Rattle.std.specs.Prelude.{◌≡◌};
ghost use Rattle.fx_math.specs.declared.scene.Scene.{Scene as TheScene};

use std::marker::{Model, PhantomData};

/// Names a scene, for contracts alone (`names`): it has no bytes, and nothing reads it when the program
/// runs. Whoever makes a picture's claims has its scene as shared arrays and a tree, so there is no
/// `Scene` to hand over.
pub struct SceneName {
    marker: PhantomData<()>,
    pub ghost names: { TheScene },
}

impl Model for SceneName {
    ghost use base.Fml.{ftrue};

    ghost also_owns = { λ _. ftrue };
}

impl SceneName {
    // A name owns nothing, so it may be that of any scene.
    fn any() -> SceneName
        ghost scene: { TheScene }
        ensures { result.names ≡ scene }
    {
        SceneName {
            marker: PhantomData,
        }
    }

    /// The name of a scene that `about` shows: the caller's proof says which one it is.
    pub fn of<T>(_about: &T) -> SceneName
        ghost scene: { TheScene }
        ensures { result.names ≡ scene }
    {
        SceneName::any()
    }
}

impl Drop for SceneName {
    fn drop(self) {
        let Self { marker: _ } = self;
    }
}
