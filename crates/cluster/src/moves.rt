// The move from one stage to another, which no caller outside can make.
ghost use Rattle.std.specs.Prelude.{◌≡◌};
ghost use Rattle.cluster.specs.Answers.{kept_by};

use crate::Cluster;
use std::marker::PhantomData;

impl<A, L, G> Cluster<A, L, G> {
    pub(crate) fn at<H>(self) -> Cluster<A, L, H>
        ensures { kept_by result ≡ kept_by self }
    {
        let Cluster {
            parameters,
            app,
            layer,
            stage: _,
        } = self;
        Cluster {
            parameters,
            app,
            layer,
            stage: PhantomData,
        }
    }
}
