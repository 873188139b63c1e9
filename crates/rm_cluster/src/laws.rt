ghost use Rattle.std.specs.Prelude.{◌≡◌, ℕ, List};
ghost use Rattle.rm_types.specs.declared.settings.Settings.{Settings};
ghost use Rattle.rm_cluster.specs.Clusters.{IsCluster, IsNoCluster};
ghost use Rattle.rm_cluster.specs.declared.clusters.ClusterError.TheVariants.{Refused};

/// Bytes have one answer: no two settings, no two places, and not both settings and a place.
pub fn one_answer()
    ensures settings { (bytes : List ℕ) (one other : Settings) → IsCluster bytes one → IsCluster bytes other → one ≡ other }
    ensures places { (bytes : List ℕ) (one other : ℕ) → IsNoCluster bytes (Refused one) → IsNoCluster bytes (Refused other) → one ≡ other }
    ensures apart { (bytes : List ℕ) (settings : Settings) (place : ℕ) → IsCluster bytes settings → IsNoCluster bytes (Refused place) → ⊥ }
{}
