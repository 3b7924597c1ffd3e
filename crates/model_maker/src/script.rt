ghost use Rattle.std.specs.Prelude.{◌≡◌};
ghost use Rattle.model_maker.specs.Script.{made_script};

/// The script that runs over the made files.
#[tactic(auto, unfolding(crate::specs::Script::made_script))]
pub fn script_text() -> &'static [u8]
    ensures { result.now ≡ made_script }
{
    b"binding\n\
      Ldd = made_ldd.asc : ldd;\n\
      Zone = made_zone.asc : nominal;\n\
      Soil = made_soil.asc;\n\
      Rain = made_rain.tss;\n\
      Q = q;\n\
      T = made_q.tss;\n\
      areamap Ldd;\n\
      timer 1 4 1;\n\
      initial\n\
      Store = 0;\n\
      dynamic\n\
      Wet = timeinputscalar(Rain, Zone) + windowaverage(Soil, 3);\n\
      Store = Store + accuthresholdstate(Ldd, Wet, Soil);\n\
      report Q = accuthresholdflux(Ldd, Wet, Soil);\n\
      report Mean = areaaverage(Wet, Zone);\n\
      report T = timeoutput(Zone, Q);\n"
}
